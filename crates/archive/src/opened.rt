// A file that was accepted, over its borrowed bytes.
ghost use Rattle.std.specs.Prelude.{◌≡◌, ◌≤◌, true};
ghost use Rattle.stored.specs.Numerals.{all_bytes};
ghost use Rattle.archive.specs.Checks.{rows_told};

use std::marker::PhantomData;

mod calls;
mod rows;

// Kept without bounds on the kinds, so that whoever holds an archive needs none. A fact about the kinds' forms would need them: so that the bytes have no fault, and how they lie, is no field.
// Kept: which rows it has is said by `Opened`, as a premise of the calls, since they are no field; `open` says on which it is opened.
#[derive(PartialEq, Eq, Debug, Drop)]
pub struct Archive<'a, K, T> {
    bytes: &'a [u8],
    count: usize,
    kinds: PhantomData<(K, T)>,
    ghost few: { count ≤ 1024 },
    ghost typed: { all_bytes bytes.now ≡ true },
    ghost counted: { count ≡ rows_told bytes.now },
}

// What a row is in the file: the bytes of the request and of the answer.
#[derive(Clone, Copy, PartialEq, Eq, Debug)]
pub struct Parts<'a> {
    pub request: &'a [u8],
    pub answer: &'a [u8],
}
