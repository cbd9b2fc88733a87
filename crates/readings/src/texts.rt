// Texts that are read. Each test makes what it needs, so that it can be read by itself.
use aspif::error::TextError;
use reader::lists::Lists;
use reader::pieces::Counts;
use reader::reading::read;

#[test]
fn every_list_is_filled_from_its_front(rt: HostRuntime) {
    let text =
        b"asp 1 0 0\n1 0 1 2 0 2 1 -3\n4 2 ab 1 2\n3 7 x\n1 1 0 0 0\n6 2 4 -1\n4 1 c 1 2\n0\n";
    let mut integers = [9; 12];
    let mut starts = [9; 3];
    let mut places = [9; 5];
    let mut lengths = [9; 5];
    let mut assumed = [9; 3];
    let mut lists = Lists {
        integers: &mut integers,
        starts: &mut starts,
        places: &mut places,
        lengths: &mut lengths,
        assumed: &mut assumed,
    };
    let answer = read(text, &mut lists);
    assert_eq!(rt;
        answer,
        Ok(Counts {
            atoms: 4,
            rules: 2,
            integers: 11,
            assumed: 2,
        })
    );
    assert_eq!(rt; integers, [0, 1, 2, 0, 2, 1, -3, 1, 0, 0, 0, 9]);
    assert_eq!(rt; starts, [0, 7, 9]);
    assert_eq!(rt; places, [0, 31, 0, 0, 9]);
    assert_eq!(rt; lengths, [0, 2, 0, 0, 9]);
    assert_eq!(rt; assumed, [4, -1, 9]);
}

fn refusal(text: &[u8]) -> Result<Counts, TextError> {
    let mut lists = Lists {
        integers: &mut [0; 4],
        starts: &mut [0; 1],
        places: &mut [0; 1],
        lengths: &mut [0; 1],
        assumed: &mut [0; 1],
    };
    read(text, &mut lists)
}

#[test]
fn the_first_fault_from_the_left_is_told(rt: HostRuntime) {
    assert_eq!(rt; refusal(b""), Err(TextError::WrongHeading));
    assert_eq!(rt; refusal(b"asp 1 0 0\n"), Err(TextError::UnexpectedEnd(10)));
    assert_eq!(rt;
        refusal(b"asp 1 0 0\n5 1 0\n0\n"),
        Err(TextError::Unsupported(10))
    );
    assert_eq!(rt;
        refusal(b"asp 1 0 0\n1 0 2 1 2 0 0\n0\n"),
        Err(TextError::DisjunctiveHead(14))
    );
    assert_eq!(rt;
        refusal(b"asp 1 0 0\n1 0 1 0 0 0\n0\n"),
        Err(TextError::UnknownAtom(16))
    );
    assert_eq!(rt; refusal(b"asp 1 0 0\n0\n\n"), Err(TextError::Malformed(12)));
    assert_eq!(rt;
        refusal(b"asp 1 0 0\n1 0 1 2 0 0\n0\n"),
        Err(TextError::TooShort)
    );
}
