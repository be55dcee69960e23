//! The kinds of successful answers.

ghost use Rattle.std.specs.Prelude.{◌≡◌, ℕ, Bool, true, false, refl, Result, Err};
ghost use Rattle.fuse_fs.specs.Answers.{entry_answer, done_answer, attr_answer, opened_answer, stats_answer};
ghost use Rattle.fuse_fs.specs.Answers.{written_answer, offset_answer, target_answer, value_answer};
ghost use Rattle.fuse_fs.specs.Answers.{names_answer};
ghost use Rattle.fuse_fs.specs.Answers.{created_answer};
ghost use Rattle.fuse_fs.specs.Calls.{FileAnswer, Failed};

use crate::answers::{Entry, GetxattrReply, ListxattrReply, Timeout};
use crate::file_system::FileNumber;
use fuse_base::{Attr, OpenOptions, StatVfs};

/// A kind of successful answer.
pub trait GoodAnswer {
    // The answer that a result of this kind means, successful or not.
    ghost said: { Result Self ℕ → FileAnswer };

    // Whether the server sends no reply for a successful answer.
    ghost silent: { Bool };

    // An error means a failure with its number.
    ghost fails: { (e : ℕ) → said (Err e) ≡ Failed e };
}

impl<I: FileNumber> GoodAnswer for Entry<I> {
    ghost said = { entry_answer I.number };

    ghost silent = { false };

    ghost fails = { λ e. refl };
}

/// The successful answer of a call that has no reply if it succeeds.
#[derive(Drop)]
pub struct Silence;

impl GoodAnswer for Silence {
    ghost said = { done_answer };

    ghost silent = { true };

    ghost fails = { λ e. refl };
}

impl GoodAnswer for () {
    ghost said = { done_answer };

    ghost silent = { false };

    ghost fails = { λ e. refl };
}

impl GoodAnswer for (Attr, Timeout) {
    ghost said = { attr_answer };

    ghost silent = { false };

    ghost fails = { λ e. refl };
}

impl<H: FileNumber> GoodAnswer for (Option<H>, OpenOptions) {
    ghost said = { opened_answer H.number };

    ghost silent = { false };

    ghost fails = { λ e. refl };
}

impl GoodAnswer for StatVfs {
    ghost said = { stats_answer };

    ghost silent = { false };

    ghost fails = { λ e. refl };
}

impl GoodAnswer for u32 {
    ghost said = { written_answer };

    ghost silent = { false };

    ghost fails = { λ e. refl };
}

impl GoodAnswer for u64 {
    ghost said = { offset_answer };

    ghost silent = { false };

    ghost fails = { λ e. refl };
}

impl GoodAnswer for Vec<u8> {
    ghost said = { target_answer };

    ghost silent = { false };

    ghost fails = { λ e. refl };
}

impl GoodAnswer for GetxattrReply {
    ghost said = { value_answer };

    ghost silent = { false };

    ghost fails = { λ e. refl };
}

impl GoodAnswer for ListxattrReply {
    ghost said = { names_answer };

    ghost silent = { false };

    ghost fails = { λ e. refl };
}

impl<I: FileNumber, H: FileNumber> GoodAnswer for (Entry<I>, Option<H>, OpenOptions) {
    ghost said = { created_answer I.number H.number };

    ghost silent = { false };

    ghost fails = { λ e. refl };
}
