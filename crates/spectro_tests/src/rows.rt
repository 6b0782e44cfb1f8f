ghost use Rattle.std.specs.Prelude.{◌≡◌, [], ◌∷◌, IfOk};

use spectro_rows::{Entry, Keyed, Rows, group, turn};
use std::alloc::{AllocError, Global};
use std::process::Abort;
use std::test::Fail;

// Letters under keys.
#[derive(Clone, Copy)]
struct Letters<'a> {
    entries: &'a [Entry<u8>],
}

impl<'a> Keyed for Letters<'a> {
    type Item = u8;

    ghost entries = { λ letters. letters.entries.now };

    fn len(&self) -> usize {
        self.entries.len()
    }

    fn entry(&self, k: usize) -> Entry<u8> {
        self.entries[k]
    }
}

const ENTRIES: [Entry<u8>; 3] = [
    Entry { key: 2, item: b'x' },
    Entry { key: 0, item: b'y' },
    Entry { key: 2, item: b'z' },
];

fn are_rows<T: Copy + PartialEq>(rt: &impl Abort, rows: &Rows<T>, wanted: &[&[T]]) {
    assert_eq!(rt; rows.len(), wanted.len());
    for (k, row) in wanted.iter().enumerate() {
        assert!(rt; rows.row(k) == *row, "row {k}");
    }
}

fn followers(alloc: Global) -> Result<Rows<u32>, AllocError>
    ensures { IfOk result (λ rows. rows ≡ record { rows = (1 ∷ 1 ∷ []) ∷ (0 ∷ 2 ∷ []) ∷ [] ∷ []; last = [] }) }
{
    let mut rows = Rows::new(alloc);
    rows.push(1)?;
    rows.push(1)?;
    rows.close()?;
    rows.push(0)?;
    rows.push(2)?;
    rows.close()?;
    rows.close()?;
    Ok(rows)
}

#[test]
fn letters_go_to_their_keys_in_order(rt: HostRuntime) -> Result<(), Fail> {
    let letters = Letters { entries: &ENTRIES };
    let rows = group(rt.alloc(), &letters, 4)?;
    are_rows(&rt, &rows, &[b"y", b"", b"xz", b""]);
    Ok(())
}

#[test]
fn rows_are_turned_round_with_each_once(rt: HostRuntime) -> Result<(), Fail> {
    let rows = turn(rt.alloc(), &followers(rt.alloc())?)?;
    are_rows(&rt, &rows, &[&[1], &[0], &[1]]);
    Ok(())
}
