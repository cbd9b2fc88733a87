use crate::made::Lists;
use aspif::error::TextError;
use aspif::writer::write;
use numbers::numbers::NumbersBook;
use report::fault::Fault;
use report::telling::tell;
use sheet::error::SheetError;
use std::test::Fail;

#[test]
fn an_empty_book_is_two_lines(rt: HostRuntime) -> Result<(), Fail> {
    let lists = Lists::new(rt.alloc(), 0)?;
    let book = NumbersBook::new(lists.lent());
    let mut out = [7u8; 13];
    assert_eq!(rt; write(&book, &mut out), Ok(12));
    assert_eq!(rt; &out, b"asp 1 0 0\n0\n\x07");
    let mut short = [7u8; 11];
    assert_eq!(rt; write(&book, &mut short), Err(TextError::TooShort));
    assert_eq!(rt; short, [7u8; 11]);
    Ok(())
}

// 42 rules of 255 literals, 12 bytes for heading and end, and a last rule for what is left of 65,536 bytes.
fn long_text(rt: &HostRuntime, negative: u16, positive: u16) -> Result<Lists, Fail> {
    let mut lists = Lists::new(rt.alloc(), 1024)?;
    lists.constraints(42, 255, -1024)?;
    lists.begin(0, 0, negative.saturating_add(positive))?;
    lists.repeat(-1024, negative)?;
    lists.repeat(1024, positive)?;
    Ok(lists)
}

#[test]
fn a_text_has_at_most_65536_bytes(rt: HostRuntime) -> Result<(), Fail> {
    let mut out = vec![in rt.alloc(); 7u8; 65_537]?;
    let more = long_text(&rt, 124, 1)?;
    let refused = write(&NumbersBook::new(more.lent()), &mut out);
    assert_eq!(rt; refused, Err(TextError::OverLimit(0)));
    assert_eq!(rt; out.first().copied(), Some(7));
    let most = long_text(&rt, 123, 2)?;
    assert_eq!(rt; write(&NumbersBook::new(most.lent()), &mut out), Ok(65_536));
    assert_eq!(rt; out.get(65_535).copied(), Some(b'\n'));
    assert_eq!(rt; out.get(65_536).copied(), Some(7));
    Ok(())
}

#[test]
fn a_text_has_at_most_16384_integers(rt: HostRuntime) -> Result<(), Fail> {
    let mut out = vec![in rt.alloc(); 0u8; 65_536]?;
    let mut lists = Lists::new(rt.alloc(), 1)?;
    lists.constraints(2047, 4, 1)?;
    lists.begin(0, 0, 4)?;
    lists.repeat(1, 4)?;
    assert_eq!(rt;
        write(&NumbersBook::new(lists.lent()), &mut out),
        Ok(36_876)
    );
    let mut more = Lists::new(rt.alloc(), 1)?;
    more.constraints(2047, 4, 1)?;
    more.begin(0, 0, 5)?;
    more.repeat(1, 5)?;
    let refused = write(&NumbersBook::new(more.lent()), &mut out);
    assert_eq!(rt; refused, Err(TextError::OverLimit(0)));
    Ok(())
}

#[test]
fn a_line_that_does_not_fit_is_not_begun(rt: HostRuntime) {
    let fault = Fault::Sheet(SheetError::MissingGround(1, 4_294_967_295));
    let mut out = [7u8; 32];
    assert_eq!(rt; tell(&fault, &mut out), Ok(30));
    assert_eq!(rt; &out, b"refusal 15 sheet 1 4294967295\n\x07\x07");
    let mut short = [7u8; 29];
    assert_eq!(rt;
        tell(&fault, &mut short),
        Err(Fault::Sheet(SheetError::TooShort))
    );
    assert_eq!(rt; short, [7u8; 29]);
}
