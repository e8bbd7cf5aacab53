use store_words::Notice;

/// Says something on standard error. What can't be said changes nothing.
pub fn tell(rt: &HostRuntime, notice: &Notice) {
    let _ = eprintln!(rt; "{notice}");
}
