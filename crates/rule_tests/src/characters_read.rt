//! Characters: examples of the Unicode Standard, chapter 3, Table 3-4 and Tables 3-8 to 3-11.
use characters::{Characters, Part};

const R1: Part = Part::Replaced { length: 1 };

const R2: Part = Part::Replaced { length: 2 };

const R3: Part = Part::Replaced { length: 3 };

fn character(code_point: u32, length: usize) -> Part {
    Part::Character { code_point, length }
}

// Whether the bytes have just these parts.
fn reads(bytes: &[u8], expected: &[Part]) -> bool {
    Characters::of(bytes).eq(expected.iter().copied())
}

#[test]
fn well_formed(rt: HostRuntime) {
    assert!(rt;
        reads(
            b"\x4D\xD0\xB0\xE4\xBA\x8C\xF0\x90\x8C\x82",
            &[
                character(0x4D, 1),
                character(0x430, 2),
                character(0x4E8C, 3),
                character(0x10302, 4),
            ],
        )
    );
    assert!(rt; reads(b"\xEF\xBF\xBD", &[character(0xFFFD, 3)]));
}

#[test]
fn ill_formed(rt: HostRuntime) {
    assert!(rt;
        reads(
            b"\xC0\xAF\xE0\x80\xBF\xF0\x81\x82\x41",
            &[R1, R1, R1, R1, R1, R1, R1, R1, character(0x41, 1)],
        )
    );
    assert!(rt;
        reads(
            b"\xED\xA0\x80\xED\xBF\xBF\xED\xAF\x41",
            &[R1, R1, R1, R1, R1, R1, R1, R1, character(0x41, 1)],
        )
    );
    assert!(rt;
        reads(
            b"\xF4\x91\x92\x93\xFF\x41\x80\xBF\x42",
            &[
                R1,
                R1,
                R1,
                R1,
                R1,
                character(0x41, 1),
                R1,
                R1,
                character(0x42, 1)
            ],
        )
    );
    assert!(rt;
        reads(
            b"\xE1\x80\xE2\xF0\x91\x92\xF1\xBF\x41",
            &[R2, R1, R3, R2, character(0x41, 1)],
        )
    );
}

#[test]
fn before_a_colon(rt: HostRuntime) {
    let colon = character(0x3A, 1);
    assert!(rt; reads(b"\xE2\x82\x3A", &[R2, colon]));
    assert!(rt; reads(b"\xF0\x80\x3A", &[R1, R1, colon]));
}
