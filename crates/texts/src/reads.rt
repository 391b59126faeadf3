// Texts read into a dictionary.
use crate::shown::{show_look_up, show_read};
use crate::spelt::{number, switches};
use demos::shown::{Demo, Shown, begin_under};
use demos::told::text;
use games::bounds::MOST_NODES;

// 0, 1, -1, *, a form equal to 0, one equal to *, then 2 and the half,
// for which a store of 4 rows has no room, and two faults.
const READ: [&str; 10] = [
    "{|}",
    "{{|}|}",
    "{|{|}}",
    "{{|}|{|}}",
    "{{|{|}}|{{|}|}}",
    "{{|}|{|},{|}}",
    "{{{|}|}|}",
    "{{{|}|{{|}|}}|}",
    "{{{|}|}|",
    "{{|}|{|}}}",
];

// The earliest bracket for which there is no room.
pub(crate) struct OneRow;

impl Demo for OneRow {
    fn over<S: Shown>(&self, rt: &HostRuntime) -> anyhow::Result<()> {
        let Some(mut dictionary) = begin_under::<S>(rt, 1, "", " of 1 row")? else {
            return Ok(());
        };
        show_read(rt, &mut dictionary, "{{|}|}", b"{{|}|}")?;
        let frozen = dictionary.freeze();
        for text in ["{|}", "{{|}|}"] {
            show_look_up(rt, &frozen, text, text.as_bytes())?;
        }
        Ok(())
    }
}

// Reads the texts, and then reads back what is printed for each node.
pub(crate) struct Reads;

impl Demo for Reads {
    fn over<S: Shown>(&self, rt: &HostRuntime) -> anyhow::Result<()> {
        let begun = begin_under::<S>(rt, 4, "reading into ", " of 4 rows")?;
        let Some(mut dictionary) = begun else {
            return Ok(());
        };
        for text in READ {
            show_read(rt, &mut dictionary, text, text.as_bytes())?;
        }
        for node in 0..4 {
            if let Ok(text) = text(&dictionary, node, &mut [0; 64]) {
                show_read(rt, &mut dictionary, "read back", text)?;
            }
        }
        Ok(())
    }
}

// Forms as deep and as wide as may be, and what is beyond.
pub(crate) struct Extremes;

impl Demo for Extremes {
    fn over<S: Shown>(&self, rt: &HostRuntime) -> anyhow::Result<()> {
        let begun = begin_under::<S>(rt, MOST_NODES, "deep and wide forms, over ", "")?;
        let Some(mut dictionary) = begun else {
            return Ok(());
        };
        for (name, depth) in [("97 deep", 97), ("96 deep", 96), ("and again", 96)] {
            show_read(rt, &mut dictionary, name, number(rt, depth)?.as_bytes())?;
        }
        for (name, count) in [("16 options", 16), ("17 options", 17)] {
            show_read(rt, &mut dictionary, name, switches(rt, count)?.as_bytes())?;
        }
        let inside = format!(in rt.alloc(); "{{{}|}}", switches(rt, 17)?)?;
        show_read(rt, &mut dictionary, "17 options inside", inside.as_bytes())
    }
}
