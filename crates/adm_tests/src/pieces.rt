// What no clause says and no program reaches: pieces of any size, and a reader that fails at each call.
use adm_csv::{Fault, RowFault, read_rows};
use adm_types::Row;
use adm_wire::Watched;
use std::alloc::Global;
use std::io;
use std::io::{ErrorKind, Read};

const FILE: &[u8] =
    b"child,name,east,north,looked_after,flags,siblings,day,preferences\n1,C1,0,200,no,,,2024-10-31,A;B\n2,C2,0,100,yes,0;3,B,2024-10-31,A\n";

/// Gives a few bytes at each call, and fails after some calls.
#[derive(Drop)]
struct Pieces<'a> {
    bytes: &'a [u8],
    size: usize,
    calls: usize,
}

impl<'a> Read for Pieces<'a> {
    fn read(&mut self, buf: &mut [u8]) -> io::Result<usize> {
        if self.calls == 0 {
            return Err(io::Error::from(ErrorKind::Other));
        }
        self.calls -= 1;
        let count = self.size.min(buf.len()).min(self.bytes.len());
        buf[..count].copy_from_slice(&self.bytes[..count]);
        self.bytes = &self.bytes[count..];
        Ok(count)
    }
}

fn read(alloc: Global, size: usize, calls: usize) -> Result<Vec<Row>, RowFault> {
    let pieces = Pieces {
        bytes: FILE,
        size,
        calls,
    };
    read_rows(alloc, &mut Watched::new(pieces))
}

fn is_first(row: &Row) -> bool {
    let child = &row.child;
    child.no.get() == 1
        && child.name.as_str() == "C1"
        && child.home.east == 0
        && child.home.north == 200
        && !child.looked_after
        && child.flags == 0
        && child.siblings.as_slice().is_empty()
        && row.day.number() == 20_027
        && row.preferences.len() == 2
}

fn is_second(row: &Row) -> bool {
    let child = &row.child;
    child.no.get() == 2
        && child.looked_after
        && child.flags == 9
        && child.siblings.len() == 1
        && row.day.number() == 20_027
        && row.preferences.len() == 1
}

#[test]
fn pieces_of_any_size(rt: HostRuntime) {
    for size in [1, 2, 7, 4096] {
        match read(rt.alloc(), size, 1000) {
            Ok(rows) => match rows.as_slice() {
                [first, second] => assert!(rt; is_first(first) && is_second(second)),
                _ => assert!(rt; false),
            },
            Err(_) => assert!(rt; false),
        }
    }
}

#[test]
fn a_reader_that_fails(rt: HostRuntime) {
    for calls in 0..20 {
        let ended = FILE
            .iter()
            .take(7 * calls)
            .filter(|byte| **byte == b'\n')
            .count();
        let wanted = RowFault {
            row: ended as u64,
            fault: Fault::Read,
        };
        match read(rt.alloc(), 7, calls) {
            Ok(_) => assert!(rt; false),
            Err(fault) => assert!(rt; fault == wanted),
        }
    }
}
