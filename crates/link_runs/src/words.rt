// The words of a line: options, and calls with what they are lent.
use link_words::{PLAIN_OPTIONS, pass_word, read_format, read_pass};
use marks::LinkOptions;
use settled::Pass;
use std::str::SplitWhitespace;
use table_words::read_number;

#[derive(Clone, Copy)]
pub enum Name {
    Begin,
    Of(Pass),
    Finish,
}

impl Name {
    pub fn text(self) -> &'static str {
        match self {
            Name::Begin => "begin",
            Name::Of(pass) => pass_word(pass),
            Name::Finish => "finish",
        }
    }
}

/// A call with what it is lent: mark rows, arrows, places in each other work slice, rows of the result list.
#[derive(Clone, Copy)]
pub struct Asked {
    pub name: Name,
    pub marks: usize,
    pub arrows: usize,
    pub places: usize,
    pub rows: usize,
}

pub fn read_options(words: SplitWhitespace<'_>) -> Option<LinkOptions> {
    let mut options = PLAIN_OPTIONS;
    for word in words {
        match word {
            "no-splitting" => options.splitting_off = true,
            "strict-order" => options.strict_order = true,
            "manual-groups" => options.manual_groups = true,
            "profiler-names" => options.profiler_names = true,
            other => options.format = read_format(other)?,
        }
    }
    Some(options)
}

fn read_name(word: &str) -> Option<Name> {
    match word {
        "begin" => Some(Name::Begin),
        "finish" => Some(Name::Finish),
        other => read_pass(other).map(Name::Of),
    }
}

fn with_part(asked: Asked, part: &str) -> Option<Asked> {
    let (key, value) = part.split_once('=')?;
    let n = read_number(value)? as usize;
    match key {
        "marks" => Some(Asked { marks: n, ..asked }),
        "arrows" => Some(Asked { arrows: n, ..asked }),
        "places" => Some(Asked { places: n, ..asked }),
        "rows" => Some(Asked { rows: n, ..asked }),
        _ => None,
    }
}

/// `wrap`, or `wrap/arrows=4/places=6`.
pub fn read_asked(word: &str) -> Option<Asked> {
    let mut parts = word.split('/');
    let mut asked = Asked {
        name: read_name(parts.next()?)?,
        marks: 100,
        arrows: 100,
        places: 100,
        rows: 10,
    };
    for part in parts {
        asked = with_part(asked, part)?;
    }
    Some(asked)
}
