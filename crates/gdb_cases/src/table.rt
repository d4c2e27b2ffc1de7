// The table's rows: their bytes, parts and numbers.
ghost use Rattle.std.specs.Prelude.{◌<◌, IfSome};

// Byte k; 0 past the end.
pub(crate) fn byte(t: &[u8], k: usize) -> u8 {
    t.get(k).copied().unwrap_or(0)
}

// What stands from place k on, up to `end`; nothing where that is no part.
pub(crate) fn part(t: &[u8], k: usize, end: usize) -> &[u8] {
    t.get(k..end).unwrap_or(&[])
}

// A hexadecimal digit's value.
pub(crate) fn digit(b: u8) -> Option<u8>
    ensures { IfSome result (λ d. d < 16) }
{
    match b {
        b'0'..=b'9' => Some(b - b'0'),
        b'A'..=b'F' => Some(b - b'A' + 10),
        _ => None,
    }
}

// The first decimal number, if there is one, and what stands behind its digits. One above 2^64 - 1 is no case of the table.
pub(crate) fn number(t: &[u8]) -> (Option<u64>, &[u8]) {
    let Some(start) = t.iter().position(|b| b.is_ascii_digit()) else {
        return (None, &[]);
    };
    let found = &t[start..];
    let end = found
        .iter()
        .position(|b| !b.is_ascii_digit())
        .unwrap_or(found.len());
    let (digits, behind) = found.split_at(end);
    let mut value: u64 = 0;
    for b in digits {
        value = (value % 1844674407370955162 * 10).wrapping_add(u64::from(b.wrapping_sub(b'0')));
    }
    (Some(value), behind)
}
