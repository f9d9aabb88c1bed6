//! Where a page is made piece by piece.
ghost use Rattle.std.specs.Prelude.{◌≡◌, ◌≤◌, ◌+◌, ◌++◌, ℕ, List, [], length, sum};
ghost use Rattle.ogg_page.specs.Page.{Page, page_of};
ghost use Rattle.ogg_page.specs.Sizes.{fixed_size, most_values};
ghost use Rattle.ogg_page.specs.declared.head.PageHead.{PageHead as HeadOf};

use ogg_page::{PageBuffer, PageHead, close_page, open_page};

/// Where pages are made: each begins with its head and its lacing values, its body is put piece by piece, and then it
/// is ended.
pub trait PageSpace {
    /// There is room for a page of this many bytes.
    ghost fits: { Self → ℕ → Type 0 };

    /// There is room for this many bytes more in the body of the page in work.
    ghost free: { Self → ℕ → Type 0 };

    /// From the first of two moments to the second, a page with this head and these lacing values was begun, and this
    /// is its body so far.
    ghost in_work: { Self → HeadOf → List ℕ → List ℕ → Self → Type 0 };

    /// From the first of two moments to the second, this page was made.
    ghost has_made: { Self → Page → Self → Type 0 };

    /// Begins a page with this head and these lacing values, at most 255.
    fn begin_page(&mut self, head: &PageHead, lacing: &[u8])
        requires values { length lacing.now ≤ most_values }
        requires room { fits self.old (fixed_size + length lacing.now + sum lacing.now) }
        ensures free { free self.new (sum lacing.now) }
        ensures work { in_work self.old head.now lacing.now [] self.new };

    /// Appends to the page's body.
    fn put(&mut self, bytes: &[u8])
        requires { (rest : ℕ) × free self.old (length bytes.now + rest) }
        ensures free { (rest : ℕ) → free self.old (length bytes.now + rest) → free self.new rest }
        ensures work { (before : Self) (head : HeadOf) (lacing body : List ℕ) →
            in_work before head lacing body self.old → in_work before head lacing (body ++ bytes.now) self.new };

    /// Ends the page, which has this head and `size` bytes.
    fn end_page(&mut self, head: &PageHead, size: usize)
        requires { (before : Self) × (lacing : List ℕ) × (body : List ℕ) × in_work before head.now lacing body self.old
            × (length body ≡ sum lacing) × (size ≡ fixed_size + length lacing + length body) }
        ensures { (before : Self) (lacing body : List ℕ) → in_work before head.now lacing body self.old
            → length body ≡ sum lacing → size ≡ fixed_size + length lacing + length body
            → has_made before (page_of head.now lacing body) self.new };
}

/// A buffer holds one page.
impl PageSpace for PageBuffer {
    ghost use Rattle.std.specs.Prelude.{◌≡◌, ◌+◌, ◌≤◌, Some, length, sum};

    ghost fits = { λ buffer size. Unit {0} };

    ghost free = { λ buffer rest. length buffer.body + rest ≤ sum buffer.lacing };

    ghost in_work = { λ before head lacing body buffer. (buffer.lacing ≡ lacing) × (buffer.body ≡ body) };

    ghost has_made = { λ before page buffer. buffer.finished ≡ Some page };

    fn begin_page(&mut self, _head: &PageHead, lacing: &[u8]) {
        self.start(lacing);
    }

    fn put(&mut self, bytes: &[u8]) {
        PageBuffer::put(self, bytes);
    }

    fn end_page(&mut self, head: &PageHead, _size: usize) {
        self.finish(head);
    }
}

/// Pages are appended to a vector with room for them.
impl PageSpace for Vec<u8> {
    ghost use Rattle.std.specs.Prelude.{◌+◌, ◌≤◌, vec_len, vec_capacity};
    ghost use Rattle.packetiser.specs.PageSpace.{IsAppending, IsAppended};

    ghost fits = { λ out size. vec_len out + size ≤ vec_capacity out };

    ghost free = { λ out rest. vec_len out + rest ≤ vec_capacity out };

    ghost in_work = { λ before head lacing body out.
        IsAppending before.items (vec_capacity before) head lacing body out.items (vec_capacity out) };

    ghost has_made = { λ before page out.
        IsAppended before.items (vec_capacity before) page out.items (vec_capacity out) };

    fn begin_page(&mut self, head: &PageHead, lacing: &[u8]) {
        open_page(head, lacing, self);
    }

    fn put(&mut self, bytes: &[u8]) {
        self.extend_from_slice(bytes).unwrap();
    }

    fn end_page(&mut self, _head: &PageHead, size: usize) {
        close_page(self.len() - size, self);
    }
}
