// The fields of a case, parted by " | ". A field is a line of the program with spaces for its tabs.
ghost use Rattle.std.specs.Prelude.{◌<◌, ◌≤◌, length, IfSome};

// The first of some fields, and the fields past its bar; none where nothing is left.
pub(crate) fn split_field<'a>(fields: &'a [u8]) -> Option<(&'a [u8], &'a [u8])>
    ensures { IfSome result (λ p. length p.1.now < length fields.now) }
{
    if fields.is_empty() {
        return None;
    }
    match fields.windows(3).position(|w| w.starts_with(b" | ")) {
        Some(end) => Some((&fields[..end], &fields[end + 3..])),
        None => Some((fields, &[])),
    }
}

// The fields past so many.
pub(crate) fn past<'a>(fields: &'a [u8], count: usize) -> &'a [u8] {
    let mut rest = fields;
    for _ in 0..count {
        let Some((_, next)) = split_field(rest) else {
            return rest;
        };
        rest = next;
    }
    rest
}

// A field as a line of the program, as far as a text has room for it.
pub(crate) fn as_line<'a>(field: &[u8], text: &'a mut [u8]) -> &'a [u8]
    ensures { length result.now ≤ length text.old }
{
    let len = field.len().min(text.len());
    let line = &mut text[..len];
    line.copy_from_slice(&field[..len]);
    for byte in line.iter_mut() {
        if *byte == b' ' {
            *byte = b'\t';
        }
    }
    line
}
