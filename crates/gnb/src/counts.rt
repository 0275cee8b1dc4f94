// What became of the blocks of a batch, counted from their marks.
ghost use Rattle.std.specs.Prelude.{◌≡◌, ◌+◌, ◌*◌, ◌<◌, ◌≤◌, [], ◌∷◌, length};
ghost use Rattle.harq.specs.Words.{all_of};
ghost use Rattle.gnb.specs.Readings.{marks_in, with_marks, marked, none_counted};
ghost use Rattle.gnb.specs.declared.marks.Marks.{Marks};
ghost use Rattle.gnb.specs.declared.marks.Marks.TheVariants.{One};

use crate::grants::GrantEntry;
use crate::marks::{Mark, Marks};

#[derive(Clone, Copy, Debug, Default, PartialEq, Eq)]
pub struct Counts {
    // Blocks granted, each SPS entry counting as one.
    pub granted: u32,
    pub delivered: u32,
    pub negative: u32,
    pub unanswered: u32,
}

impl Counts {
    // Before the first mark.
    pub(crate) fn none(granted: u32) -> Counts
        ensures { result ≡ none_counted granted }
    {
        Counts {
            granted,
            ..Counts::default()
        }
    }

    // With one mark more. This and the next two ask for room for what they add: a count that callers make up has no bound of its own.
    fn with_mark(self, mark: Mark) -> Counts
        requires { marked self < 4096 }
        ensures { result ≡ with_marks self (mark ∷ []) }
    {
        let mut counts = self;
        match mark {
            Mark::Delivered => counts.delivered += 1,
            Mark::Negative => counts.negative += 1,
            Mark::Unanswered => counts.unanswered += 1,
        }
        counts
    }

    // With the marks of one item.
    fn with_one(self, marks: Marks) -> Counts
        requires { marked self < 4095 }
        ensures { result ≡ with_marks self (marks_in marks) }
    {
        match marks {
            Marks::One(first) => self.with_mark(first),
            Marks::Two(first, second) => self.with_mark(first).with_mark(second),
        }
    }

    // With the marks of each item.
    pub(crate) fn with_all<T: Marked>(self, items: &[T]) -> Counts
        requires { marked self + 2 * length items.now ≤ 4096 }
        ensures is { result ≡ with_marks self (all_of (λ x. marks_in (T.marks_of x)) items.now) }
        ensures few { marked result ≤ marked self + 2 * length items.now }
    {
        // A loop: a closure of `fold` would have to say in a clause of its own that there is room.
        let mut counts = self;
        for item in items {
            counts = counts.with_one(item.marks());
        }
        counts
    }
}

// What has marks to count.
pub(crate) trait Marked {
    ghost marks_of: { Self → Marks };

    fn marks(&self) -> Marks
        ensures { result ≡ marks_of self.now };
}

impl Marked for Mark {
    ghost marks_of = { One };

    fn marks(&self) -> Marks {
        Marks::One(*self)
    }
}

impl Marked for GrantEntry {
    ghost marks_of = { λ entry. entry.marks };

    fn marks(&self) -> Marks {
        self.marks
    }
}
