//! When a file is begun, and which are thrown away.
ghost use Rattle.std.specs.Prelude.{◌≡◌, ◌+◌, ◌<◌, ◌↔◌, IsTrue, IfSome, length, not, option_map, position};
ghost use Rattle.archive_names.specs.declared.plan.Held.{Held as HeldOf};
ghost use Rattle.archive_names.specs.Plan.{IsFull, IsOver, goes, is_old, is_too_much, next_for_room, next_to_go};

/// How long and how great a file becomes.
#[derive(Clone, Copy, Debug, PartialEq, Eq)]
pub struct Limits {
    /// A file has the commands of one period: how many seconds that has. Periods are counted since 1970.
    pub every: u64,
    /// A file that has this many bytes gets no further command.
    pub most_bytes: Option<u64>,
}

/// What is kept of the files.
#[derive(Clone, Copy, Debug, PartialEq, Eq)]
pub struct Keeping {
    /// For how long, in milliseconds.
    pub span: Option<u64>,
    /// How many bytes of all together.
    pub bytes: Option<u64>,
}

/// One file of those that there are.
#[derive(Clone, Copy, Debug, PartialEq, Eq)]
pub struct Held {
    /// Its bytes, with those of its times.
    pub bytes: u64,
    /// Its last time, in milliseconds since 1970.
    pub last: u64,
    /// Whether it is never to be thrown away.
    pub is_kept: bool,
}

/// A file that is to be thrown away.
#[derive(Clone, Copy, Debug, PartialEq, Eq)]
pub struct Going {
    /// Which of the files it is.
    pub at: usize,
    /// Whether it goes by its age alone, and so counts among the four that do.
    pub by_age: bool,
}

fn is_full(most: Option<u64>, bytes: u64) -> bool
    ensures { IsTrue result ↔ IsFull most bytes }
{
    match most {
        Some(most) => most <= bytes,
        None => false,
    }
}

/// Whether the next command belongs into a new file: by when this one was begun and what time it is, in seconds since
/// 1970, and by its bytes.
pub fn is_over(limits: Limits, begin: u64, bytes: u64, now: u64) -> bool
    requires { 0 < limits.every }
    ensures { IsTrue result ↔ IsOver limits begin bytes now }
{
    // A clock that went back lies in another period too.
    now / limits.every != begin / limits.every || is_full(limits.most_bytes, bytes)
}

fn is_too_much(most: Option<u64>, files: &[Held]) -> bool
    ensures { result ≡ is_too_much most files.now }
{
    let Some(mut left) = most else {
        return false;
    };
    for file in files {
        match left.checked_sub(file.bytes) {
            Some(less) => left = less,
            None => return true,
        }
    }
    false
}

fn is_old(span: Option<u64>, now: u64, file: &Held) -> bool
    ensures { result ≡ is_old span now file.now }
{
    match span {
        Some(span) => now.saturating_sub(file.last) > span,
        None => false,
    }
}

fn goes(file: &Held, keeping: Keeping, now: u64, gone: usize, too_much: bool) -> bool
    ensures { result ≡ goes keeping now gone too_much file.now }
{
    !file.is_kept && (too_much || (is_old(keeping.span, now, file) && gone < 4))
}

fn first_to_go(
    older: &[Held],
    keeping: Keeping,
    now: u64,
    gone: usize,
    too_much: bool,
) -> Option<usize>
    ensures { result ≡ position (goes keeping now gone too_much) older.now }
{
    older
        .iter()
        .position(|file| goes(file, keeping, now, gone, too_much))
}

/// The oldest file that is to be thrown away, if one is, of files in the order of their numbers. The last of them is
/// the newest, `now` is in milliseconds since 1970, and `gone` counts those that went by age since a file was begun.
pub fn next_to_go(files: &[Held], keeping: Keeping, now: u64, gone: usize) -> Option<Going>
    ensures at { option_map (λ going. going.at) result ≡ next_to_go files.now keeping now gone }
    ensures by_age { IfSome result (λ going. going.by_age ≡ not (is_too_much keeping.bytes files.now)) }

    // The newest never goes.
    ensures newest { IfSome result (λ going. going.at + 1 < length files.now) }
{
    let too_much = is_too_much(keeping.bytes, files);
    let [older @ .., _] = files else {
        return None;
    };
    match first_to_go(older, keeping, now, gone, too_much) {
        Some(at) => Some(Going {
            at,
            by_age: !too_much,
        }),
        None => None,
    }
}

fn first_unkept(older: &[Held]) -> Option<usize>
    ensures { result ≡ position (λ (file : HeldOf). not file.is_kept) older.now }
{
    older.iter().position(|file| !file.is_kept)
}

/// The oldest file that may be thrown away if no room is left on the device, if there is one, of files in the order of
/// their numbers, of which the last is the newest. None goes unless a bound is set for their bytes.
pub fn next_for_room(files: &[Held], keeping: Keeping) -> Option<usize>
    ensures at { result ≡ next_for_room files.now keeping.bytes }

    // The newest never goes.
    ensures newest { IfSome result (λ at. at + 1 < length files.now) }
{
    let (Some(_), [older @ .., _]) = (keeping.bytes, files) else {
        return None;
    };
    first_unkept(older)
}
