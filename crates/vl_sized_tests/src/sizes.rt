//! Sized expressions with their width and their sign.

use crate::sample::Sample;
use crate::worth::sized;
use std::test::Fail;

struct Row {
    text: &'static [u8],
    context: u32,
    told: (u32, bool),
}

static SIZED: [Row; 20] = [
    Row {
        text: b"s3\n",
        context: 0,
        told: (8, false),
    },
    Row {
        text: b"s2\n",
        context: 0,
        told: (4, true),
    },
    Row {
        text: b"s2 + s3\n",
        context: 0,
        told: (8, false),
    },
    Row {
        text: b"s2 + 8'sd1\n",
        context: 0,
        told: (8, true),
    },
    Row {
        text: b"s2 + 1\n",
        context: 40,
        told: (40, true),
    },
    Row {
        text: b"s2 << s3\n",
        context: 0,
        told: (4, true),
    },
    Row {
        text: b"s2 < s3\n",
        context: 16,
        told: (16, false),
    },
    Row {
        text: b"!s3\n",
        context: 0,
        told: (1, false),
    },
    Row {
        text: b"s3[3]\n",
        context: 0,
        told: (1, false),
    },
    Row {
        text: b"s3[4:1]\n",
        context: 0,
        told: (4, false),
    },
    Row {
        text: b"s5[1:4]\n",
        context: 0,
        told: (4, false),
    },
    Row {
        text: b"s3[s2 +: 3]\n",
        context: 0,
        told: (3, false),
    },
    Row {
        text: b"s3[s2 -: P]\n",
        context: 0,
        told: (3, false),
    },
    Row {
        text: b"m0[s3]\n",
        context: 0,
        told: (8, false),
    },
    Row {
        text: b"m0[s3][7:6]\n",
        context: 0,
        told: (2, false),
    },
    Row {
        text: b"f(s3, s2)\n",
        context: 0,
        told: (12, true),
    },
    Row {
        text: b"{s3, s2, 1'b1}\n",
        context: 0,
        told: (13, false),
    },
    Row {
        text: b"{P{s3, s2}}\n",
        context: 0,
        told: (36, false),
    },
    Row {
        text: b"s3 ? s2 : 3'sd1\n",
        context: 0,
        told: (4, true),
    },
    Row {
        text: b"$signed(s3) + $clog2(s3)\n",
        context: 0,
        told: (32, true),
    },
];

#[test]
fn expressions_have_their_sizes(rt: HostRuntime) -> Result<(), Fail> {
    let names = Sample { values: &[] };
    for (k, row) in SIZED.iter().enumerate() {
        if row.context > 128 {
            return Err("a wide context".into());
        }
        let told = match sized(rt.alloc(), &names, row.text, row.context)? {
            Ok(it) => (it.size.width, it.size.signed),
            Err(_) => (0, false),
        };
        assert_eq!(rt; (k, told), (k, row.told));
    }
    Ok(())
}
