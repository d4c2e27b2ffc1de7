// Small trace files, built piece by piece.
ghost use Rattle.std.specs.Prelude.{◌≤◌};

use crate::table;

// The most bytes that a file built here can have.
const ROOM: usize = 256;

// The bytes that are the file are the first `len`; none where a piece found no room, so that a case can not quietly run on
// a file that was cut.
#[derive(Clone, Copy)]
pub struct File {
    bytes: [u8; ROOM],
    len: Option<usize>,
}

impl File {
    pub(crate) fn empty() -> Self {
        File {
            bytes: [0; ROOM],
            len: Some(0),
        }
    }

    pub(crate) fn has_room(&self) -> bool {
        self.len.is_some()
    }

    // The file, or nothing where a piece found no room.
    pub(crate) fn bytes(&self) -> &[u8] {
        table::part(&self.bytes, 0, self.len.unwrap_or(0))
    }

    fn push(&mut self, b: u8) {
        match self.len {
            Some(n) if n < ROOM => {
                self.bytes[n] = b;
                self.len = Some(n + 1);
            }
            _ => self.len = None,
        }
    }

    fn push_all(&mut self, bytes: &[u8]) {
        for b in bytes {
            self.push(*b);
        }
    }

    // The `width` low bytes of a number, in the byte order of the case: 1 is big, every other little.
    fn push_number(&mut self, order: u8, x: u64, width: usize)
        requires { width ≤ 8 }
    {
        if order == 1 {
            self.push_all(&x.to_be_bytes()[8 - width..]);
        } else {
            self.push_all(&x.to_le_bytes()[..width]);
        }
    }

    // A byte in two digits.
    fn push_digits(&mut self, high: u8, low: u8) {
        let high = table::digit(high).unwrap_or(0);
        let low = table::digit(low).unwrap_or(0);
        self.push(high * 16 + low);
    }

    // Cuts the file to its first n bytes, of which it has so many.
    fn cut(&mut self, n: usize) {
        self.len = (n <= self.len.unwrap_or(ROOM)).then_some(n);
    }

    // Adds the piece that `t` starts with. Digits and spaces are no piece of their own.
    fn push_piece(&mut self, order: u8, t: &[u8]) {
        let (n, _) = table::number(t);
        let x = n.unwrap_or(0);
        match table::byte(t, 0) {
            b'H' => self.push_all(b"\x7fTRACE0\n"),
            b'n' => self.push(b'\n'),
            b'x' => self.push_digits(table::byte(t, 1), table::byte(t, 2)),
            b'w' => self.push_number(order, x, 2),
            b'd' => self.push_number(order, x, 4),
            b'q' => self.push_number(order, x, 8),
            b'c' => self.cut(x as usize),
            _ => {}
        }
    }

    // The file that a line of pieces describes. What stands in quotes is taken as it is.
    pub(crate) fn of(order: u8, t: &[u8]) -> Self {
        let mut f = File::empty();
        let mut quoted = false;
        for (k, b) in t.iter().enumerate() {
            if *b == b'"' {
                quoted = !quoted;
            } else if quoted {
                f.push(*b);
            } else {
                f.push_piece(order, table::part(t, k, t.len()));
            }
        }
        f
    }
}
