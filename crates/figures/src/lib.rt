// The worked figures of the documents, as theorems of the definitions that the contracts use.
#![tactic(auto)]

ghost use Rattle.std.specs.Prelude.{◌≡◌, length};
ghost use Rattle.figures.specs.Table.{figures, Holds};

fn rows() -> usize
    ensures { result ≡ length figures }
{
    15
}

// How many rows the table of figures has, each of which is proved to hold.
pub fn proved_figures() -> usize
    ensures count { result ≡ length figures }
    ensures hold { Holds figures }
{
    rows()
}
