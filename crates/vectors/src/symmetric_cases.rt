// SHA-256 and the ChaCha20 block: the examples of FIPS 180-4 and RFC 8439, generated cases, and each refusal.
// Every output holds old bytes before the call, so that a refusal shows what it left.
use crate::show;
use crate::show::OLD;

// The generated message of n bytes goes by this modulus.
const MODULUS: usize = 251;

// The longest message of a case, one byte longer than is lawful.
const MOST: usize = 65536;

fn hash_line(rt: &impl Print, message: &[u8], digest: &mut [u8]) {
    let v = symmetric::hash(message, digest);
    show::end_line(rt, v, digest);
}

fn documented(rt: &impl Print) {
    let examples = [
        ("abc", "abc"),
        (
            "two blocks",
            "abcdbcdecdefdefgefghfghighijhijkijkljklmklmnlmnomnopnopq",
        ),
        ("empty", ""),
    ];
    for (name, message) in examples {
        let _ = print!(rt; "hash {name}");
        hash_line(rt, message.as_bytes(), &mut [OLD; 32]);
    }
}

// A generated message of n bytes.
fn generated(rt: &impl Print, n: usize, digest: &mut [u8]) {
    let _ = print!(rt; "hash of {n} into {}", digest.len());
    let mut message = [0u8; MOST];
    show::fill(n, MODULUS, &mut message);
    hash_line(rt, show::front(&message, n), digest);
}

fn hashes(rt: &impl Print) {
    let lengths = [
        1, 55, 56, 63, 64, 65, 119, 120, 127, 128, 1000, 4096, 65535, 65536,
    ];
    for n in lengths {
        generated(rt, n, &mut [OLD; 32]);
    }
}

fn hash_refusals(rt: &impl Print) {
    generated(rt, MOST, &mut [OLD; 31]);
    generated(rt, 3, &mut [OLD; 31]);
    generated(rt, 3, &mut [OLD; 33]);
}

fn block_line(rt: &impl Print, name: &str, key: &[u8], nonce: &[u8], counter: u32, out: &mut [u8]) {
    let _ = print!(rt; "block {name}");
    let v = symmetric::block(key, nonce, counter, out);
    show::end_line(rt, v, out);
}

fn block(rt: &impl Print, name: &str, key: &[u8], nonce: &[u8], counter: u32) {
    block_line(rt, name, key, nonce, counter, &mut [OLD; 64]);
}

// RFC 8439, section 2.3.2: the key is the bytes 0 to 31.
fn counted() -> [u8; 32] {
    std::array::from_fn(|i| (i % 32) as u8)
}

const NONCE: [u8; 12] = [0, 0, 0, 9, 0, 0, 0, 74, 0, 0, 0, 0];

// Section 2.3.2, and the five blocks of appendix A.1.
fn documents(rt: &impl Print) {
    block(rt, "2.3.2", &counted(), &NONCE, 1);
    let zero = [0u8; 32];
    let none = [0u8; 12];
    block(rt, "A.1 1", &zero, &none, 0);
    block(rt, "A.1 2", &zero, &none, 1);
    let mut last = zero;
    last[31] = 1;
    block(rt, "A.1 3", &last, &none, 1);
    let mut second = zero;
    second[1] = 255;
    block(rt, "A.1 4", &second, &none, 2);
    let mut two = none;
    two[11] = 2;
    block(rt, "A.1 5", &zero, &two, 0);
}

fn counters(rt: &impl Print) {
    block(rt, "counter 0", &counted(), &NONCE, 0);
    block(rt, "counter 1", &counted(), &NONCE, 1);
    block(rt, "counter 2147483648", &counted(), &NONCE, 2147483648);
    block(rt, "counter 4294967295", &counted(), &NONCE, 4294967295);
}

fn block_refusals(rt: &impl Print) {
    let key = [0u8; 32];
    let nonce = [0u8; 12];
    block(rt, "key of 31", &[0; 31], &nonce, 0);
    block(rt, "key of 33", &[0; 33], &nonce, 0);
    block(rt, "nonce of 11", &key, &[0; 11], 0);
    block(rt, "nonce of 13", &key, &[0; 13], 0);
    block_line(rt, "into 63", &key, &nonce, 0, &mut [OLD; 63]);
    block_line(rt, "into 65", &key, &nonce, 0, &mut [OLD; 65]);
    let mut one = [OLD; 1];
    block_line(rt, "key of 0, nonce of 0, into 1", b"", b"", 0, &mut one);
    block_line(rt, "nonce of 0, into 1", &key, b"", 0, &mut one);
}

pub(crate) fn run(rt: &impl Print) {
    documented(rt);
    hashes(rt);
    hash_refusals(rt);
    documents(rt);
    counters(rt);
    block_refusals(rt);
}
