// How a test holds what any shelf answers to what it should. Every refusal is met alone and with those that come after it: a number that
// is not on the shelf, then the width, then the line, then the slice.
use fault::{Fault, Reason};
use shelf::Shelf;
use std::process::Abort;
use std::test::Fail;

// A content of a shelf as a test writes it: its number, its least and greatest width, a width, and its page there, which is its lines one
// after the other with nothing between, or is empty where the content is not set at that width. No
// Option: a page has a line, so one of no bytes is none.
#[derive(Clone, Copy)]
pub(crate) struct ContentSeen<'a> {
    k: u16,
    least: u16,
    most: u16,
    w: u16,
    page: &'a [u8],
}

pub(crate) fn content<'a>(
    k: u16,
    least: u16,
    most: u16,
    w: u16,
    page: &'a [u8],
) -> ContentSeen<'a> {
    ContentSeen {
        k,
        least,
        most,
        w,
        page,
    }
}

// The shelf has these contents, and no other of the numbers below 18 nor the last two.
pub(crate) fn check_shelf<S: Shelf>(
    rt: &impl Abort,
    shelf: &S,
    contents: &[ContentSeen],
) -> Result<(), Fail> {
    for content in contents {
        check_widths(rt, shelf, content)?;
        Setting::new(shelf, content.k, content.w).check_page(rt, content.page)?;
    }
    for k in 0..18 {
        if !has(contents, k) {
            check_absent(rt, shelf, k)?;
        }
    }
    check_absent(rt, shelf, 65534)?;
    check_absent(rt, shelf, 65535)
}

fn has(contents: &[ContentSeen], k: u16) -> bool {
    contents.iter().any(|content| content.k == k)
}

// The content has its two widths, and is set at none that is smaller or past 2000.
fn check_widths<S: Shelf>(rt: &impl Abort, shelf: &S, content: &ContentSeen) -> Result<(), Fail> {
    assert_eq!(rt; shelf.widths(content.k)?, (content.least, content.most));
    Setting::new(shelf, content.k, content.least.saturating_sub(1)).check_unfit(rt)?;
    Setting::new(shelf, content.k, 2001).check_unfit(rt)
}

// Content k is not on the shelf, whatever the width, the line and the slice.
fn check_absent<S: Shelf>(rt: &impl Abort, shelf: &S, k: u16) -> Result<(), Fail> {
    check_refused(rt, shelf.widths(k), Reason::NotOnShelf)?;
    for w in [0, 1, 100, 2000, 2001, 65535] {
        Setting::new(shelf, k, w).check_no_page(rt, 100, Reason::NotOnShelf)?;
    }
    Ok(())
}

// Content k of a shelf at width w, whether the shelf has it or not.
#[derive(Drop)]
struct Setting<'s, S> {
    shelf: &'s S,
    k: u16,
    w: u16,
}

impl<'s, S: Shelf> Setting<'s, S> {
    fn new(shelf: &'s S, k: u16, w: u16) -> Setting<'s, S> {
        Setting { shelf, k, w }
    }

    // It shows the page. A page without a line says that the content is not set at that width.
    fn check_page(&self, rt: &impl Abort, page: &[u8]) -> Result<(), Fail> {
        if page.is_empty() {
            return self.check_unfit(rt);
        }
        assert!(rt; self.w > 0);
        for (r, line) in (0..u16::MAX).zip(page.chunks_exact(self.w as usize)) {
            self.check_line(rt, r, line)?;
        }
        self.check_end(rt, page.len())
    }

    // It is as high as a page of that many bytes, and has no line after its last, whatever the slice.
    fn check_end(&self, rt: &impl Abort, size: usize) -> Result<(), Fail> {
        let wide = self.w as usize;
        let height = self.shelf.height(self.k, self.w)?;
        assert_eq!(rt; height as usize * wide, size);
        self.check_line_refused(rt, height, wide, Reason::PastLastLine)?;
        self.check_line_refused(rt, 65535, 0, Reason::PastLastLine)
    }

    // Line r is the one given, and goes into no slice of another length.
    fn check_line(&self, rt: &impl Abort, r: u16, line: &[u8]) -> Result<(), Fail> {
        self.check_shown(rt, r, line)?;
        let wide = line.len();
        self.check_line_refused(rt, r, wide.saturating_sub(1), Reason::WrongLineLength)?;
        self.check_line_refused(rt, r, wide.saturating_add(1), Reason::WrongLineLength)
    }

    fn check_shown(&self, rt: &impl Abort, r: u16, line: &[u8]) -> Result<(), Fail> {
        let wide = line.len();
        assert!(rt; wide <= 2000);
        let mut room = [0; 2000];
        let out = &mut room[0..wide];
        self.shelf.line(self.k, self.w, r, out)?;
        assert_eq!(rt; &*out, line);
        Ok(())
    }

    // The content is on the shelf, but is not set at that width.
    fn check_unfit(&self, rt: &impl Abort) -> Result<(), Fail> {
        self.check_no_page(rt, 1, Reason::UnfitWidth)
    }

    // Its height is refused for that reason, and so are line 0 into a slice of n bytes and line 65535 into one of none.
    fn check_no_page(&self, rt: &impl Abort, n: usize, reason: Reason) -> Result<(), Fail> {
        check_refused(rt, self.shelf.height(self.k, self.w), reason)?;
        self.check_line_refused(rt, 0, n, reason)?;
        self.check_line_refused(rt, 65535, 0, reason)
    }

    // Line r into a slice of n bytes is refused for that reason, and the slice is left as it was.
    fn check_line_refused(
        &self,
        rt: &impl Abort,
        r: u16,
        n: usize,
        reason: Reason,
    ) -> Result<(), Fail> {
        assert!(rt; n <= 2001);
        let mut room = [b'#'; 2001];
        check_refused(
            rt,
            self.shelf.line(self.k, self.w, r, &mut room[0..n]),
            reason,
        )?;
        assert!(rt; room == [b'#'; 2001]);
        Ok(())
    }
}

// The answer is a refusal for that reason, and names no place.
pub(crate) fn check_refused<T: Drop>(
    rt: &impl Abort,
    answer: Result<T, Fault>,
    reason: Reason,
) -> Result<(), Fail> {
    match answer {
        Ok(_) => Err(Fail::new("not refused")),
        Err(fault) => {
            assert_eq!(rt; (fault.reason, fault.place), (reason, 0));
            Ok(())
        },
    }
}
