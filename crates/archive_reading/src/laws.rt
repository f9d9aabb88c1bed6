//! What always holds of the end that a walk finds.
ghost use Rattle.std.specs.Prelude.{◌≡◌, ℕ, List, ◌++◌, length};
ghost use Rattle.std.specs.List.{AllByRecursion};
ghost use Rattle.ogg_page.specs.Page.{Page, IsPage, bytes_of_pages};
ghost use Rattle.gate_file.specs.Commit.{CommitsTo};
ghost use Rattle.archive_reading.specs.Ends.{EndsFrom};

/// From any place between two of the committed pages a walk comes to the end of the committed bytes.
pub fn walks_end_where_bytes_are_committed()
    ensures { (b image : List ℕ) (before after : List Page) → CommitsTo b image → AllByRecursion IsPage (before ++ after)
        → b ≡ bytes_of_pages (before ++ after) → EndsFrom image (length (bytes_of_pages before)) (length b) }
{}
