//! The numbers and names of faults.
use feed_codec::{FeedFault, RunFault};
use ogg_page::PageFault;
use packet_view::{StreamFault, ViewFault};
use skeleton3::SkeletonFault;

/// Each fault of a page, its number and its name.
const OF_PAGES: [(PageFault, (u8, &str)); 4] = [
    (PageFault::Short, (1, "Short")),
    (PageFault::Pattern, (2, "Pattern")),
    (PageFault::Version, (3, "Version")),
    (PageFault::Checksum, (4, "Checksum")),
];

/// The same for packets in pages.
const OF_VIEWS: [(ViewFault, (u8, &str)); 5] = [
    (ViewFault::Page(0, PageFault::Short), (1, "Page")),
    (ViewFault::Sequence(0), (2, "Sequence")),
    (ViewFault::Continued(0), (3, "Continued")),
    (ViewFault::AfterEos(0), (4, "AfterEos")),
    (ViewFault::Unfinished, (5, "Unfinished")),
];

/// The same for the parts of a stream.
const OF_STREAMS: [(StreamFault, (u8, &str)); 2] = [
    (StreamFault::Source, (1, "Source")),
    (StreamFault::View(ViewFault::Unfinished), (2, "View")),
];

/// The same for a Skeleton's packets.
const OF_SKELETONS: [(SkeletonFault, (u8, &str)); 4] = [
    (SkeletonFault::Length, (1, "Length")),
    (SkeletonFault::Name, (2, "Name")),
    (SkeletonFault::Version, (3, "Version")),
    (SkeletonFault::Fields, (4, "Fields")),
];

fn pages_faults_are_told() -> bool {
    for (fault, want) in &OF_PAGES {
        if (fault.code(), fault.name()) != *want {
            return false;
        }
    }
    true
}

fn views_faults_are_told() -> bool {
    for (fault, want) in &OF_VIEWS {
        if (fault.code(), fault.name()) != *want {
            return false;
        }
    }
    true
}

fn streams_faults_are_told() -> bool {
    for (fault, want) in &OF_STREAMS {
        if (fault.code(), fault.name()) != *want {
            return false;
        }
    }
    true
}

fn skeletons_faults_are_told() -> bool {
    for (fault, want) in &OF_SKELETONS {
        if (fault.code(), fault.name()) != *want {
            return false;
        }
    }
    true
}

#[test]
fn faults_have_their_numbers_and_names(rt: HostRuntime) {
    assert!(rt; pages_faults_are_told() && views_faults_are_told());
    assert!(rt; streams_faults_are_told() && skeletons_faults_are_told());
    let run = RunFault::Feed(FeedFault::Form);
    assert!(rt; (run.code(), run.name()) == (1, "Feed"));
    let feed = FeedFault::Memory;
    assert!(rt; (feed.code(), feed.name()) == (6, "Memory"));
}
