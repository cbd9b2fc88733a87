// The rules of one book and then those of another.
ghost use Rattle.std.specs.Prelude.{◌≡◌};
ghost use Rattle.book.specs.Rules.{rule_at};
ghost use Rattle.book.specs.Joined.{fit_together, joined as joined_rules, joined_name, rule_found};
ghost use Rattle.book.specs.JoinedLawful.{joined_lawful};

use crate::book::{Book, NamedBook};
use crate::kind::Kind;
use crate::place::Place;

// Where both have more than 2,048 rules together, this is the empty book.
#[derive(Clone, Copy)]
pub struct JoinedBook<P: Book, Q: Book> {
    pub first: P,
    pub second: Q,
}

impl<P: Book, Q: Book> JoinedBook<P, Q> {
    fn fits(&self) -> bool
        ensures { result ≡ fit_together (P.Book.meaning self.now.first) (Q.Book.meaning self.now.second) }
    {
        self.first.rules() as u64 + self.second.rules() as u64 <= 2048
    }

    fn place(&self, rule: u32) -> Option<Place>
        ensures { rule_at (joined_rules (P.Book.meaning self.now.first) (Q.Book.meaning self.now.second)) rule ≡ rule_found (P.Book.meaning self.now.first) (Q.Book.meaning self.now.second) result }
    {
        if !self.fits() {
            return None;
        }
        let n = self.first.rules();
        if rule < n {
            Some(Place::First(rule))
        } else {
            Some(Place::Second(rule - n))
        }
    }
}

// The two books have types of their own, so each look-up asks the one or the other in an arm.
impl<P: Book, Q: Book> Book for JoinedBook<P, Q> {
    ghost meaning = { λ j. joined_rules (P.Book.meaning j.first) (Q.Book.meaning j.second) };

    ghost lawful = { λ j. joined_lawful (P.Book.meaning j.first) (Q.Book.meaning j.second) (P.Book.lawful j.first) (Q.Book.lawful j.second) };

    fn atoms(&self) -> u32 {
        if self.fits() {
            self.first.atoms().max(self.second.atoms())
        } else {
            0
        }
    }

    fn rules(&self) -> u32 {
        if self.fits() {
            self.first.rules() + self.second.rules()
        } else {
            0
        }
    }

    fn kind(&self, rule: u32) -> Option<Kind> {
        match self.place(rule)? {
            Place::First(r) => self.first.kind(r),
            Place::Second(r) => self.second.kind(r),
        }
    }

    fn head_size(&self, rule: u32) -> Option<u32> {
        match self.place(rule)? {
            Place::First(r) => self.first.head_size(r),
            Place::Second(r) => self.second.head_size(r),
        }
    }

    fn body_size(&self, rule: u32) -> Option<u32> {
        match self.place(rule)? {
            Place::First(r) => self.first.body_size(r),
            Place::Second(r) => self.second.body_size(r),
        }
    }

    fn head(&self, rule: u32, at: u32) -> Option<u32> {
        match self.place(rule)? {
            Place::First(r) => self.first.head(r, at),
            Place::Second(r) => self.second.head(r, at),
        }
    }

    fn literal(&self, rule: u32, at: u32) -> Option<i32> {
        match self.place(rule)? {
            Place::First(r) => self.first.literal(r, at),
            Place::Second(r) => self.second.literal(r, at),
        }
    }
}

impl<P: NamedBook, Q: NamedBook> NamedBook for JoinedBook<P, Q> {
    ghost naming = { λ j atom. joined_name (P.Book.meaning j.first) (Q.Book.meaning j.second) (P.NamedBook.naming j.first atom) (Q.NamedBook.naming j.second atom) };

    fn name(&self, atom: u32) -> Option<&[u8]> {
        if !self.fits() {
            return None;
        }
        self.first.name(atom).or_else(|| self.second.name(atom))
    }
}
