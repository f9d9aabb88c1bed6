//! The parts of a page that are left of it.
ghost use Rattle.std.specs.Prelude.{◌≡◌, ◌≤◌, length};
ghost use Rattle.import_mend.specs.Mended.{front_values, whole_values};

use ogg_page::FULL_VALUE;

/// How many lacing values a packet has that goes on from the page before.
pub fn front_values(lacing: &[u8]) -> usize
    ensures value { result ≡ front_values lacing.now }
    ensures within { result ≤ length lacing.now }
{
    let mut count = 0;
    for value in lacing {
        count += 1;
        if *value < FULL_VALUE {
            break;
        }
    }
    count
}

/// How many lacing values the packets have that end in the page.
pub fn whole_values(lacing: &[u8]) -> usize
    ensures value { result ≡ whole_values lacing.now }
    ensures within { result ≤ length lacing.now }
{
    let mut count = 0;
    let mut passed = 0;
    for value in lacing {
        passed += 1;
        if *value < FULL_VALUE {
            count = passed;
        }
    }
    count
}
