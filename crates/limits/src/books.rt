// Books at their limits. Each test makes what it needs, so that it can be read by itself.
use crate::made::Lists;
use book::book::Book;
use book::error::BookError;
use book::facts::{FactBook, check_facts};
use book::joined::JoinedBook;
use numbers::numbers::NumbersBook;
use std::alloc::Global;
use std::test::Fail;

#[test]
fn empty_lists_are_an_empty_book(rt: HostRuntime) -> Result<(), Fail> {
    let lists = Lists::new(rt.alloc(), 0)?;
    assert_eq!(rt; lists.lent().check(), Ok(()));
    let book = NumbersBook::new(lists.lent());
    assert_eq!(rt; book.atoms(), 0);
    assert_eq!(rt; book.rules(), 0);
    assert_eq!(rt; check_facts(0, &[]), Ok(()));
    Ok(())
}

#[test]
fn a_book_has_at_most_1024_atoms(rt: HostRuntime) -> Result<(), Fail> {
    let most = Lists::new(rt.alloc(), 1024)?;
    assert_eq!(rt; most.lent().check(), Ok(()));
    assert_eq!(rt; NumbersBook::new(most.lent()).atoms(), 1024);
    let more = Lists::new(rt.alloc(), 1025)?;
    assert_eq!(rt; more.lent().check(), Err(BookError::TooManyAtoms));
    assert_eq!(rt; NumbersBook::new(more.lent()).atoms(), 0);
    assert_eq!(rt; check_facts(1024, &[1024]), Ok(()));
    assert_eq!(rt; check_facts(1025, &[1025]), Err(BookError::TooManyAtoms));
    assert_eq!(rt;
        check_facts(1024, &[1, 1025]),
        Err(BookError::FaultyRule(1))
    );
    assert_eq!(rt; check_facts(1024, &[0]), Err(BookError::FaultyRule(0)));
    Ok(())
}

fn of_one_rule(heap: Global, head_type: i32, heads: u16, literals: u16) -> Result<Lists, Fail> {
    let mut lists = Lists::new(heap, 1)?;
    lists.begin(head_type, heads, literals)?;
    lists.repeat(-1, literals)?;
    Ok(lists)
}

#[test]
fn a_body_has_at_most_255_literals(rt: HostRuntime) -> Result<(), Fail> {
    let most = of_one_rule(rt.alloc(), 0, 1, 255)?;
    assert_eq!(rt; most.lent().check(), Ok(()));
    let book = NumbersBook::new(most.lent());
    assert_eq!(rt; book.body_size(0), Some(255));
    assert_eq!(rt; book.literal(0, 254), Some(-1));
    assert_eq!(rt; book.literal(0, 255), None);
    assert_eq!(rt; book.literal(1, 0), None);
    let more = of_one_rule(rt.alloc(), 0, 1, 256)?;
    assert_eq!(rt; more.lent().check(), Err(BookError::FaultyRule(0)));
    Ok(())
}

#[test]
fn a_plain_head_has_one_atom_and_a_choice_head_255(rt: HostRuntime) -> Result<(), Fail> {
    assert_eq!(rt; of_one_rule(rt.alloc(), 0, 1, 0)?.lent().check(), Ok(()));
    let two = of_one_rule(rt.alloc(), 0, 2, 0)?;
    assert_eq!(rt; two.lent().check(), Err(BookError::FaultyRule(0)));
    let most = of_one_rule(rt.alloc(), 1, 255, 0)?;
    assert_eq!(rt; most.lent().check(), Ok(()));
    assert_eq!(rt; NumbersBook::new(most.lent()).head(0, 254), Some(1));
    let more = of_one_rule(rt.alloc(), 1, 256, 0)?;
    assert_eq!(rt; more.lent().check(), Err(BookError::FaultyRule(0)));
    let other = of_one_rule(rt.alloc(), 2, 0, 0)?;
    assert_eq!(rt; other.lent().check(), Err(BookError::FaultyRule(0)));
    Ok(())
}

#[test]
fn a_book_has_at_most_2048_rules(rt: HostRuntime) -> Result<(), Fail> {
    let mut lists = Lists::new(rt.alloc(), 1)?;
    lists.constraints(2048, 0, 1)?;
    assert_eq!(rt; lists.lent().check(), Ok(()));
    assert_eq!(rt; NumbersBook::new(lists.lent()).rules(), 2048);
    lists.constraints(1, 0, 1)?;
    assert_eq!(rt; lists.lent().check(), Err(BookError::FaultyRule(2048)));
    assert_eq!(rt; NumbersBook::new(lists.lent()).rules(), 0);
    let facts = vec![in rt.alloc(); 1u32; 2048]?;
    assert_eq!(rt; check_facts(1, &facts), Ok(()));
    let many = vec![in rt.alloc(); 1u32; 2049]?;
    assert_eq!(rt; check_facts(1, &many), Err(BookError::FaultyRule(2048)));
    Ok(())
}

#[test]
fn joined_books_have_at_most_2048_rules_together(rt: HostRuntime) -> Result<(), Fail> {
    let facts = vec![in rt.alloc(); 1u32; 2047]?;
    let first = FactBook::new(1, &facts);
    let full = JoinedBook {
        first,
        second: FactBook::new(3, &[2]),
    };
    assert_eq!(rt; full.rules(), 2048);
    assert_eq!(rt; full.atoms(), 3);
    assert_eq!(rt; full.head(2047, 0), Some(2));
    let over = JoinedBook {
        first,
        second: FactBook::new(3, &[2, 3]),
    };
    assert_eq!(rt; over.rules(), 0);
    assert_eq!(rt; over.atoms(), 0);
    assert_eq!(rt; over.head(0, 0), None);
    Ok(())
}

#[test]
fn the_most_negative_literal_is_no_atom(rt: HostRuntime) -> Result<(), Fail> {
    let mut lists = Lists::new(rt.alloc(), 1024)?;
    lists.constraints(1, 1, -1024)?;
    assert_eq!(rt; lists.lent().check(), Ok(()));
    lists.constraints(1, 1, i32::MIN)?;
    assert_eq!(rt; lists.lent().check(), Err(BookError::FaultyRule(1)));
    Ok(())
}

#[test]
fn gaps_and_what_is_left_over_are_refused(rt: HostRuntime) -> Result<(), Fail> {
    let mut left = Lists::new(rt.alloc(), 1)?;
    left.constraints(2, 1, 1)?;
    left.repeat(0, 1)?;
    assert_eq!(rt; left.lent().check(), Err(BookError::FaultyRest(2)));
    let mut gap = Lists::new(rt.alloc(), 1)?;
    gap.repeat(0, 1)?;
    gap.constraints(1, 1, 1)?;
    assert_eq!(rt; gap.lent().check(), Err(BookError::FaultyRule(0)));
    let mut names = Lists::new(rt.alloc(), 1)?;
    names.constraints(1, 1, 1)?;
    names.zeros.push(0)?;
    assert_eq!(rt; names.lent().check(), Err(BookError::FaultyRest(1)));
    Ok(())
}
