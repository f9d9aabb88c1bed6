//! The bytes of a tail: what is kept of them if there is no room for all.
ghost use Rattle.std.specs.Prelude.{◌≡◌, ◌+◌, ◌-◌, ◌≤◌, ◌++◌, length, drop, vec_len, vec_capacity};
ghost use Rattle.disk_model.specs.Image.{overwritten};
ghost use Rattle.disk_tail.specs.Tail.{surplus};

/// Writes bytes over those from `offset` on, and appends the rest. It returns how many are dropped in front.
pub(crate) fn overwrite(kept: &mut Vec<u8>, room: usize, offset: usize, bytes: &[u8]) -> usize
    requires inside { offset ≤ length kept.old.items }
    requires fits { length kept.old.items ≤ room }
    requires held { room ≤ vec_capacity kept.old }
    ensures dropped { result ≡ surplus room (length (overwritten kept.old.items offset bytes.now)) }
    ensures items { kept.new.items
        ≡ drop (surplus room (length (overwritten kept.old.items offset bytes.now))) (overwritten kept.old.items offset bytes.now) }
    ensures held { room ≤ vec_capacity kept.new }
{
    let inside = replace(kept, offset, bytes);
    append(kept, room, &bytes[inside..])
}

/// Writes bytes over those from `offset` on, as far as there are any. It returns how many.
fn replace(kept: &mut Vec<u8>, offset: usize, bytes: &[u8]) -> usize
    requires { offset ≤ length kept.old.items }
    ensures inside { result ≤ length bytes.now }
    ensures items { kept.new.items ++ drop result bytes.now ≡ overwritten kept.old.items offset bytes.now }
    ensures length { length kept.new.items ≡ length kept.old.items }
    ensures capacity { vec_capacity kept.new ≡ vec_capacity kept.old }
{
    let inside = bytes.len().min(kept.len() - offset);
    kept[offset..offset + inside].copy_from_slice(&bytes[..inside]);
    inside
}

/// Appends bytes. It returns how many are dropped in front.
pub(crate) fn append(kept: &mut Vec<u8>, room: usize, bytes: &[u8]) -> usize
    requires fits { length kept.old.items ≤ room }
    requires held { room ≤ vec_capacity kept.old }
    ensures dropped { result ≡ surplus room (length (kept.old.items ++ bytes.now)) }
    ensures items { kept.new.items
        ≡ drop (surplus room (length (kept.old.items ++ bytes.now))) (kept.old.items ++ bytes.now) }
    ensures held { room ≤ vec_capacity kept.new }
{
    let (length, more) = (kept.len(), bytes.len());
    if more <= room - length {
        push(kept, bytes);
        return 0;
    }
    let half = room / 2;
    if half <= more {
        kept.clear();
        push(kept, &bytes[more - half..]);
        return length + (more - half);
    }
    let dropped = length - (half - more);
    remove_front(kept, dropped);
    push(kept, bytes);
    dropped
}

/// Appends bytes for which there is room, so it takes no memory.
fn push(kept: &mut Vec<u8>, bytes: &[u8])
    requires { length kept.old.items + length bytes.now ≤ vec_capacity kept.old }
    ensures items { kept.new.items ≡ kept.old.items ++ bytes.now }
    ensures capacity { vec_capacity kept.old ≤ vec_capacity kept.new }
{
    let Ok(()) = kept.extend_from_slice(bytes) else {
        unreachable!()
    };
}

fn remove_front(kept: &mut Vec<u8>, n: usize)
    requires { n ≤ length kept.old.items }
    ensures items { kept.new.items ≡ drop n kept.old.items }
    ensures capacity { vec_capacity kept.new ≡ vec_capacity kept.old }
{
    let length = kept.len();
    kept.copy_within(n..length, 0);
    kept.truncate(length - n);
}
