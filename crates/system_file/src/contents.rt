ghost use Rattle.std.specs.Prelude.{ℕ, List};

/// What the files of the nodes held when they were opened. No code can read it. A function over any `C: FirstContents`
/// is proved for all contents.
pub trait FirstContents: Drop {
    // the bytes of the file of a node, by the node's number
    ghost of_node: { ℕ → List ℕ };
}

/// Contents for programs to name. Clauses on bytes say nothing at this type, unless the file was empty.
#[derive(Drop)]
pub struct UnknownContents;

impl FirstContents for UnknownContents {
    ghost use Rattle.std.specs.Prelude.{[]};

    ghost of_node = { λ _. [] };
}
