//! Both books whole.
use amounts::Place;
use exchange::Exchange;
use pledgor::PledgorBook;
use secured::SecuredBook;
use std::alloc::{AllocError, Global};

// The lots of the secured end that are not absent.
fn secured_lots(heap: Global, book: &SecuredBook) -> Result<String, AllocError> {
    let mut text = String::new(heap);
    // A book shows its lots by their numbers.
    for number in 0..32u8 {
        let entry = book.lot(number);
        if let Some(lot) = entry.lot() {
            if !text.is_empty() {
                text.push_str(",")?;
            }
            let state = entry.state();
            write!(text, "{number}:{state}:{}:{}", lot.class, lot.face)?;
        }
    }
    if text.is_empty() {
        text.push_str("-")?;
    }
    Ok(text)
}

// The places of the pledgor's own lots, a letter each.
fn pledgor_lots(heap: Global, book: &PledgorBook) -> Result<String, AllocError> {
    let mut text = String::new(heap);
    // A book shows its lots by their numbers.
    for number in 0..book.count() {
        text.push_str(match book.lot(number).place {
            Place::Home => "h",
            Place::Posted => "p",
            Place::Asked => "a",
        })?;
    }
    if text.is_empty() {
        text.push_str("-")?;
    }
    Ok(text)
}

/// What both books hold.
pub(crate) fn told(heap: Global, books: &Exchange) -> Result<String, AllocError> {
    let secured = &books.secured.book;
    let day = secured.day();
    let mut text = format!(in heap; "secured {} {} {}", day.state, day.number, day.amount)?;
    write!(
        text,
        " delivered {} freed {} v {} uncovered {} lots {}",
        secured.delivered(),
        secured.freed(),
        secured.value(),
        secured.uncovered(),
        secured_lots(heap, secured)?
    )?;
    let pledgor = &books.pledgor.book;
    let day = pledgor.day();
    write!(
        text,
        " pledgor {} {} {} lots {}",
        day.state,
        day.number,
        day.amount,
        pledgor_lots(heap, pledgor)?
    )?;
    Ok(text)
}
