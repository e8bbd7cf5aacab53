//! The lines of a membership, as they are written.
ghost use Rattle.std.specs.Prelude.{◌≡◌, ◌++◌, ◌∷◌, decimal, OnOk};
ghost use Rattle.cluster_file.specs.Texts.{header, cluster_line, node_line, id_line};

use lists::NoMemory;
use quorum_rules::Config;
use text_lines::Text;

/// Adds the first line, without its end.
pub(crate) fn add_header(text: &mut Text, config: &Config) -> Result<(), NoMemory>
    ensures { OnOk result (text.new ≡ text.old ++ header config.now.edition) }
{
    if config.edition() == 4 {
        text.add(b"pasis_store 4")
    } else {
        text.add(b"pasis_store 1")
    }
}

/// Adds the second line, without its end.
pub(crate) fn add_cluster(text: &mut Text, config: &Config) -> Result<(), NoMemory>
    ensures { OnOk result (text.new ≡ text.old ++ cluster_line config.now) }
{
    text.add(b"cluster")?;
    add_field(text, config.n())?;
    add_field(text, config.t())?;
    add_field(text, config.b())?;
    add_field(text, config.qc())?;
    add_field(text, config.m())?;
    add_field(text, config.size())?;
    add_field(text, config.blocks())?;
    Ok(())
}

/// Adds a space and a number.
fn add_field(text: &mut Text, number: u32) -> Result<(), NoMemory>
    ensures { OnOk result (text.new ≡ text.old ++ 32 ∷ decimal number) }
{
    text.add_space()?;
    text.add_number(u64::from(number))
}

/// Adds the third line, without its end.
pub(crate) fn add_node(text: &mut Text, node: u8) -> Result<(), NoMemory>
    ensures { OnOk result (text.new ≡ text.old ++ node_line node) }
{
    text.add(b"node ")?;
    text.add_number(u64::from(node))
}

/// Adds the fourth line, without its end.
pub(crate) fn add_id(text: &mut Text, id: &[u8]) -> Result<(), NoMemory>
    ensures { OnOk result (text.new ≡ text.old ++ id_line id.now) }
{
    text.add(b"id ")?;
    text.add_value(id)
}
