// Lines of text.
use basics::Refusal;

// A message as the lister prints it.
pub(crate) fn message(rt: &impl Print, receiver: &str, bytes: &[u8]) {
    let _ = println!(rt; "\nThe {receiver} receives:");
    let l = listing::list(bytes);
    let text = l.text;
    let _ = rt.write_all(&text[..l.len]);
}

pub(crate) fn refusal(rt: &impl Print, refusal: Refusal) {
    let _ = println!(rt; "\nrefused {} at {}", refusal.reason as u8, refusal.place);
}
