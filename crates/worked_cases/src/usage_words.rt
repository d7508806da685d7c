//! The words in the usage text.

use usage_text::usage;

#[test]
fn names_the_words(rt: HostRuntime) {
    let Ok(text) = usage(rt.alloc()) else {
        panic!(rt; "no memory");
    };
    let Ok(shown) = str::from_utf8(text.bytes()) else {
        panic!(rt; "not UTF-8");
    };
    for word in ["run", "ine2ext", "ext2ine", "sample"] {
        assert!(rt; shown.contains(word));
    }
}
