// Texts that are checked alone: what is wrong with each.
use crate::shown::show_check;

// Texts of forms, and texts with a fault: at the first byte, at the last, behind it, and between.
const CHECKED: [&str; 19] = [
    "",
    "{",
    "{|",
    "{|}",
    "}",
    "|}",
    " {|}",
    "{}",
    "{,|}",
    "{x|}",
    "{||}",
    "{|}}",
    "{|} ",
    "{{|},|}",
    "{{|}{|}|}",
    "{{|},{|}|}",
    "{|{|},}",
    "{{|}|{|}",
    "{{|}|{|}}",
];

// A beginning, and what follows it so many times: the bracket too deep stands in a Right list,
// and behind an option.
const TOO_DEEP: [(&str, &str, usize); 2] = [("", "{|", 97), ("{{|},", "{", 96)];

pub(crate) fn checks(rt: &HostRuntime) -> anyhow::Result<()> {
    println!(rt; "texts")?;
    for text in CHECKED {
        show_check(rt, text)?;
    }
    Ok(())
}

pub(crate) fn deep_checks(rt: &HostRuntime) -> anyhow::Result<()> {
    let heap = rt.alloc();
    for (beginning, part, times) in TOO_DEEP {
        let text = format!(in heap; "{beginning}{}", part.repeat(heap, times)?)?;
        show_check(rt, text.as_str())?;
    }
    Ok(())
}
