// What a book is: whatever answers these look-ups from its rules.
ghost use Rattle.std.specs.Prelude.{◌≡◌, ℕ, List, length, Option};
ghost use Rattle.std.specs.Option.{option_map};
ghost use Rattle.book.specs.Rules.{Rules, Lawful, rule_at, kind_of, head_size, body_size, head_atom, body_literal};

use crate::kind::Kind;

pub trait Book {
    // what the book means, and that this keeps the limits
    ghost meaning: { Self → Rules };

    ghost lawful: { (b : Self) → Lawful (meaning b) };

    // How many atoms there are.
    fn atoms(&self) -> u32
        ensures { result ≡ (meaning self.now).atoms };

    // How many rules there are.
    fn rules(&self) -> u32
        ensures { result ≡ length (meaning self.now).rules };

    fn kind(&self, rule: u32) -> Option<Kind>
        ensures { result ≡ kind_of (rule_at (meaning self.now) rule) };

    fn head_size(&self, rule: u32) -> Option<u32>
        ensures { result ≡ head_size (rule_at (meaning self.now) rule) };

    fn body_size(&self, rule: u32) -> Option<u32>
        ensures { result ≡ body_size (rule_at (meaning self.now) rule) };

    // The head atom of a rule at a position.
    fn head(&self, rule: u32, at: u32) -> Option<u32>
        ensures { result ≡ head_atom (rule_at (meaning self.now) rule) at };

    // The literal of a rule's body at a position.
    fn literal(&self, rule: u32, at: u32) -> Option<i32>
        ensures { result ≡ body_literal (rule_at (meaning self.now) rule) at };
}

// A book that also knows names of its atoms.
pub trait NamedBook: Book {
    ghost naming: { Self → ℕ → Option (List ℕ) };

    fn name(&self, atom: u32) -> Option<&[u8]>
        ensures { option_map (λ x. x.now) result ≡ naming self.now atom };
}
