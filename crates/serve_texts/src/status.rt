//! The response that says how a station fares.
ghost use Rattle.std.specs.Prelude.{◌≡◌, ◌≤◌, ◌<◌, ◌+◌, ◌*◌, ◌++◌, OnOk, OnErr, length, vec_len, vec_capacity};
ghost use Rattle.std.specs.List.{flat_map};
ghost use Rattle.arrayvec.specs.ArrayVec.{array_vec_len};
ghost use Rattle.serve_texts.specs.Status.{sample_text, status_response, status_text};

use crate::Memory;
use crate::numbers::Numbers;
use crate::response::append_response;
use crate::sample::{SAMPLES, Sample};
use arrayvec::ArrayVec;

/// The first lines of the response.
pub const STATUS_FRONT: &[u8] = b"HTTP/1.1 200 OK\r\n\
    Content-Type: text/plain; version=0.0.4; charset=utf-8\r\n\
    Cache-Control: no-store\r\n\
    Connection: close\r\n";

/// The room for all samples, in bytes. Each has at most 281.
const ROOM: usize = 8192;

type Text = ArrayVec<u8, ROOM>;

fn push(text: &mut Text, more: &[u8])
    requires { array_vec_len text.old + length more.now ≤ 8192 }
    ensures items { text.new.items ≡ text.old.items ++ more.now }
    ensures len { array_vec_len text.new ≡ array_vec_len text.old + length more.now }
{
    text.try_extend_from_slice(more).unwrap();
}

fn push_sample(text: &mut Text, sample: Sample, numbers: &Numbers)
    requires { array_vec_len text.old + 281 ≤ 8192 }
    ensures items { text.new.items ≡ text.old.items ++ sample_text numbers.now sample }
    ensures len { array_vec_len text.new ≤ array_vec_len text.old + 281 }
{
    push(text, sample.front());
    push(text, sample.value(numbers).line().as_slice());
}

fn push_samples(text: &mut Text, samples: &[Sample], numbers: &Numbers)
    requires { array_vec_len text.old + 281 * length samples.now ≤ 8192 }
    ensures { text.new.items ≡ text.old.items ++ flat_map (sample_text numbers.now) samples.now }
{
    for sample in samples {
        push_sample(text, *sample, numbers);
    }
}

fn status_text(numbers: &Numbers) -> Text
    ensures { result.items ≡ status_text numbers.now }
{
    let mut text = Text::new();
    push_samples(&mut text, &SAMPLES, numbers);
    text
}

/// Appends the whole response to `GET`, or to `HEAD`, which gets no content. After `Memory` the vector is unchanged.
pub fn append_status(out: &mut Vec<u8>, numbers: &Numbers, head: bool) -> Result<(), Memory>
    ensures ok { OnOk result (out.new.items ≡ out.old.items ++ status_response numbers.now head) }
    ensures err { OnErr result (out.new.items ≡ out.old.items) }
    ensures full { OnErr result (vec_capacity out.old < vec_len out.old + length (status_response numbers.now head)) }
{
    // The text is made on the stack, so that memory is wanted for the response alone.
    append_response(out, STATUS_FRONT, status_text(numbers).as_slice(), head)
}
