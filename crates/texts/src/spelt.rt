// Texts that are too long to be written out.
use std::alloc::AllocError;

// {|}, {{|}|}, {{{|}|}|} and so on, nested so deep: the number below that depth.
pub(crate) fn number(rt: &HostRuntime, depth: usize) -> Result<String, AllocError> {
    let heap = rt.alloc();
    format!(in heap; "{}{}", "{".repeat(heap, depth)?, "|}".repeat(heap, depth)?)
}

// {|}, {|{|}}, {|{|{|}}} and so on.
fn minus(rt: &HostRuntime, depth: usize) -> Result<String, AllocError> {
    let heap = rt.alloc();
    format!(in heap; "{}{}", "{|".repeat(heap, depth)?, "}".repeat(heap, depth)?)
}

// {{|}|{|}} and so on: the switch of the number below that depth, and of its minus.
fn switch(rt: &HostRuntime, depth: usize) -> Result<String, AllocError> {
    format!(in rt.alloc(); "{{{}|{}}}", number(rt, depth)?, minus(rt, depth)?)
}

// The switches {1|-1}, {2|-2} and so on as Left options, none of which is as good as another,
// and -18 as the Right option.
pub(crate) fn switches(rt: &HostRuntime, count: u8) -> Result<String, AllocError> {
    let heap = rt.alloc();
    let options: Vec<String> = (0..count)
        .map(|index| switch(rt, usize::from(index) + 2))
        .try_collect(heap)?;
    format!(in heap; "{{{}|{}}}", options.join(heap, ",")?, minus(rt, 19)?)
}

// So many zeros as Left options.
pub(crate) fn zeros(rt: &HostRuntime, count: usize) -> Result<String, AllocError> {
    let heap = rt.alloc();
    let options = ["{|}"].repeat(heap, count)?;
    format!(in heap; "{{{}|}}", options.join(heap, ",")?)
}
