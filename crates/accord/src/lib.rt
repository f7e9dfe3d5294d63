//! What holds between the two books while messages are under way. Knows nothing of message numbers, bytes
//! or carriers: a run is a list of calls and of bookings over two queues.
#![tactic(auto)]

ghost use Rattle.accord.specs.Agreement.{BooksAgree};
ghost use Rattle.accord.specs.Joint.{AccordIsKept};

/// Two books opened on equal terms agree, whatever is called at either end and whenever it is booked.
pub fn books_agree()
    ensures { BooksAgree }
{}

/// The relation behind it holds of two books as opened, and every call and every booking keeps it.
pub fn accord_is_kept()
    ensures { AccordIsKept }
{}
