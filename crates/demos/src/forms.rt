// The sample forms, sealed one after another in a dictionary over a store.
use crate::desk::Detail;
use crate::samples::{FORMS, ROWS, pair};
use crate::shown::{Shown, begin_under};
use crate::told::{BUFFER, print_into, tell_sealed};
use dictionary::dictionary::Dictionary;

// Tells what each form seals to, with its text where so much is told; answers the dictionary,
// if there is memory for its store.
pub fn seal_forms<S: Shown>(
    rt: &HostRuntime,
    detail: Detail,
) -> anyhow::Result<Option<Dictionary<S>>> {
    let Some(mut dictionary) = begin_under::<S>(rt, ROWS, "over ", " of 6 rows")? else {
        return Ok(None);
    };
    for (name, left, right) in FORMS {
        let sealed = dictionary.seal(&pair(left, right));
        tell_sealed(rt, &dictionary, name, sealed)?;
        if detail == Detail::OutcomeAndText
            && let Ok(node) = sealed
        {
            print_into(rt, &dictionary, node, BUFFER)?;
        }
    }
    Ok(Some(dictionary))
}
