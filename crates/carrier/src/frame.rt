//! A frame as a carrier keeps it.
ghost use Rattle.std.specs.Prelude.{◌≡◌, ◌≤◌, length};

pub mod bytes;

pub use bytes::LONGEST_FRAME;

/// A frame of 1 to 64 bytes.
// No `ArrayVec`: it is not `Copy` and its clone answers a `Result`, but repeating a frame cannot fail.
#[derive(Clone, Copy)]
pub struct Frame {
    bytes: [u8; LONGEST_FRAME],
    len: usize,
    ghost whole: { length bytes ≡ 64 },
    ghost some: { 1 ≤ len },
    ghost fits: { len ≤ 64 },
}
