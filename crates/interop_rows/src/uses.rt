// The words for a use: no impl of `Worded`, since neither that trait nor the type is this crate's.
ghost use Rattle.std.specs.Prelude.{◌≡◌};
ghost use Rattle.interop_rows.specs.Uses.{use_word, one_use_word};
ghost use Rattle.table_words.specs.Words.{Named};

use spread::InteropUse;

fn one_use_word(uses: InteropUse) -> &'static str
    ensures { result.now ≡ one_use_word uses }
{
    match (uses.node, uses.non_node) {
        (false, false) => "neither",
        (true, false) => "node",
        (false, true) => "other",
        (true, true) => "node,other",
    }
}

/// The word for a use, or for none.
pub fn use_word(uses: Option<InteropUse>) -> &'static str
    ensures { result.now ≡ use_word uses }
{
    uses.map_or("none", one_use_word)
}

/// The use that a word says.
pub fn read_use(word: &str) -> Option<InteropUse>
    ensures { Named one_use_word word.now result }
{
    let (node, non_node) = match word {
        "neither" => (false, false),
        "node" => (true, false),
        "other" => (false, true),
        "node,other" => (true, true),
        _ => return None,
    };
    Some(InteropUse { node, non_node })
}
