// What a text is found to be.
use dictionary::dictionary::Dictionary;
use dictionary::frozen::Frozen;
use reading::check::check;
use reading::look_up::look_up;
use reading::read::read;
use stores::store::Store;

pub(crate) fn show_check(rt: &HostRuntime, text: &str) -> anyhow::Result<()> {
    match check(text.as_bytes()) {
        Ok(()) => println!(rt; "[{text}]: a form's")?,
        Err(fault) => println!(rt; "[{text}]: {} at {}", fault.number(), fault.place())?,
    }
    Ok(())
}

pub(crate) fn show_read<S: Store>(
    rt: &HostRuntime,
    dictionary: &mut Dictionary<S>,
    name: &str,
    text: &[u8],
) -> anyhow::Result<()> {
    let node = read(dictionary, text).map_err(|fault| (fault.number(), fault.place()));
    show_node(rt, name, node)
}

pub(crate) fn show_look_up<S: Store>(
    rt: &HostRuntime,
    frozen: &Frozen<S>,
    name: &str,
    text: &[u8],
) -> anyhow::Result<()> {
    let node = look_up(frozen, text).map_err(|fault| (fault.number(), fault.place()));
    show_node(rt, name, node)
}

// The node of a text, or the number of its fault and the place.
fn show_node(rt: &HostRuntime, name: &str, node: Result<u16, (u8, usize)>) -> anyhow::Result<()> {
    match node {
        Ok(node) => println!(rt; "{name}: node {node}")?,
        Err((number, place)) => println!(rt; "{name}: {number} at {place}")?,
    }
    Ok(())
}
