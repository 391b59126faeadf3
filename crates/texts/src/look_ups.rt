// Texts looked up in a frozen dictionary.
use crate::shown::{show_look_up, show_read};
use crate::spelt::{number, zeros};
use demos::shown::{Demo, Shown, begin_under};

// The texts of four nodes, forms equal to one of them in other words, forms of no node,
// and texts with a fault.
const LOOKED_UP: [&str; 10] = [
    "{|}",
    "{{|}|}",
    "{{{|}|}|}",
    "{{|}|{|}}",
    "{{|},{{|}|}|}",
    "{|{|}}",
    "{{|{|}}|{{|}|}}",
    "{{{|}|{{|}|}}|{|{|}}}",
    "{{|{|}}|",
    "{|{|}}}",
];

// The earliest bracket that is no node's.
pub(crate) struct NoNodes;

impl Demo for NoNodes {
    fn over<S: Shown>(&self, rt: &HostRuntime) -> anyhow::Result<()> {
        match begin_under::<S>(rt, 1, "looking up among no nodes, over ", "")? {
            Some(dictionary) => show_look_up(rt, &dictionary.freeze(), "{{|}|}", b"{{|}|}"),
            None => Ok(()),
        }
    }
}

// Looks the texts up among four nodes.
pub(crate) struct LookUps;

impl Demo for LookUps {
    fn over<S: Shown>(&self, rt: &HostRuntime) -> anyhow::Result<()> {
        let Some(mut dictionary) = begin_under::<S>(rt, 4, "looking up over ", "")? else {
            return Ok(());
        };
        for text in ["{{{|}|}|}", "{{|}|{|}}"] {
            show_read(rt, &mut dictionary, text, text.as_bytes())?;
        }
        let frozen = dictionary.freeze();
        for text in LOOKED_UP {
            show_look_up(rt, &frozen, text, text.as_bytes())?;
        }
        for (name, depth) in [("97 deep", 97), ("96 deep", 96)] {
            show_look_up(rt, &frozen, name, number(rt, depth)?.as_bytes())?;
        }
        for (name, count) in [("16 options", 16), ("17 options", 17)] {
            show_look_up(rt, &frozen, name, zeros(rt, count)?.as_bytes())?;
        }
        Ok(())
    }
}
