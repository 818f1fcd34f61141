//! Source texts, cut into lines once.

ghost use Rattle.std.specs.Prelude.{◌≡◌, IfOk};
ghost use Rattle.py_reports.specs.Scenes.{lines_at as lines_of_path, source_of};

use crate::lines::{TextList, lines_of};
use py_code::{ItemList, NoMemory, PyText, utf8_of};
use std::alloc::Global;
use std::marker::Model;

/// A source text, seen as its path in UTF-8 and its lines.
#[derive(Drop)]
pub struct Source {
    path: String,
    lines: TextList,
}

impl Model for Source {
    ghost use Rattle.std.specs.Prelude.{string_bytes};
    ghost use Rattle.py_reports.specs.Scenes.{SourceLines};

    ghost Value = { SourceLines };

    ghost view = { λ s. record { path = string_bytes s.path; lines = s.lines } };
}

/// Source texts. Of those with one path the first one counts.
pub type Sources = ItemList<Source>;

impl Source {
    /// The source of this text. A line ends at a line feed, and a carriage return before that is
    /// no part of it; the last line needs none.
    pub fn new(alloc: Global, path: &PyText, text: &PyText) -> Result<Source, NoMemory>
        ensures { IfOk result (λ source. source ≡ source_of path.now text.now) }
    {
        Ok(Source {
            path: utf8_of(alloc, path)?,
            lines: lines_of(alloc, text.as_slice())?,
        })
    }

    fn path(&self) -> &str
        ensures { result.now ≡ self.now.path }
    {
        self.path.as_str()
    }

    fn lines(&self) -> &[PyText]
        ensures { result.now ≡ self.now.lines }
    {
        self.lines.as_slice()
    }
}

/// The lines of the first source that has a path; none, where there is no such source.
pub(crate) fn lines_at<'a>(sources: &'a [Source], path: &str) -> &'a [PyText]
    ensures { result.now ≡ lines_of_path sources.now path.now }
{
    for source in sources {
        if source.path() == path {
            return source.lines();
        }
    }
    &[]
}
