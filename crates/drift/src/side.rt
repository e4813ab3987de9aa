// A file that is read through a window of bytes, a line at a time, and its present line.
use crate::window::Window;
use std::fs;
use std::fs::File;

// Where further bytes come from: the file, or none are left, or it could not be read.
#[derive(Drop)]
enum Source {
    More(File),
    Over,
    Failed,
}

// A present line: where it stands in the window, unless it is longer than the window.
#[derive(Clone, Copy)]
enum Present {
    Held { from: usize, to: usize },
    Long,
}

#[derive(Drop)]
pub(crate) struct Side<'a> {
    pub name: &'a [u8],
    source: Source,
    window: Window<'a>,
    line: Option<Present>,
    // where the next line begins
    next: usize,
}

impl<'a> Side<'a> {
    // Opens a file, before its first line. It fails where the file cannot be opened, or its name is no text.
    pub(crate) fn open(rt: &HostRuntime, name: &'a [u8], row: &'a mut [u8]) -> Side<'a> {
        let source = match str::from_utf8(name) {
            Ok(text) => match fs::open(rt, text) {
                Ok(file) => Source::More(file),
                Err(_) => Source::Failed,
            },
            Err(_) => Source::Failed,
        };
        Side {
            name,
            source,
            window: Window::new(row),
            line: None,
            next: 0,
        }
    }

    // The file could not be read.
    pub(crate) fn failed(&self) -> bool {
        matches!(self.source, Source::Failed)
    }

    pub(crate) fn has_line(&self) -> bool {
        self.line.is_some()
    }

    // The bytes of the present line; none where no line is left, or it is longer than the window.
    pub(crate) fn text(&self) -> Option<&[u8]> {
        match self.line? {
            Present::Held { from, to } => self.window.part(from, to),
            Present::Long => None,
        }
    }

    // Whether the present line is no line of replay, as one longer than the window is none.
    pub(crate) fn strays(&self) -> bool {
        match self.text() {
            Some(s) => !output::is_line(s),
            None => self.has_line(),
        }
    }

    // Reads more bytes behind those at hand.
    fn read_on(&mut self) {
        if let Source::More(file) = &mut self.source {
            match self.window.read_from(file) {
                Ok(0) => self.source = Source::Over,
                Ok(_) => {}
                Err(_) => self.source = Source::Failed,
            }
        }
    }

    // The next line. Where it fills the window it is too long: its bytes are let go.
    pub(crate) fn advance(&mut self) {
        let mut from = self.next;
        let mut long = false;
        self.line = None;
        for _ in 0..u64::MAX {
            let end = self.window.end();
            if let Some(to) = self.window.newline(from) {
                self.line = Some(Present::at(from, to, long));
                self.next = to.saturating_add(1);
                return;
            }
            if !matches!(self.source, Source::More(_)) {
                if from < end || long {
                    self.line = Some(Present::at(from, end, long));
                }
                self.next = end;
                return;
            }
            long |= self.window.make_room(from);
            from = 0;
            self.read_on();
        }
    }
}

impl Present {
    fn at(from: usize, to: usize, long: bool) -> Present {
        if long {
            Present::Long
        } else {
            Present::Held { from, to }
        }
    }
}
