//! Each command once, over the system's files.

use crate::runs::{
    FAILED, NOT_WELL, ONE_RET, ONE_RET_IMAGE, RET, Run, WELL, begin, first_other, has_file, writes,
};
use std::{fs, io};

const RUNS: [Run; 12] = [
    Run {
        line: "lfiload --version",
        status: WELL,
        out: "lfiload 0\n",
        err: "",
    },
    Run {
        line: "lfiload check files.tmp/ret.code",
        status: WELL,
        out: "lawful, 1 words\n",
        err: "",
    },
    Run {
        line: "lfiload check --all files.tmp/ret.code",
        status: WELL,
        out: "lawful, 1 words\n",
        err: "",
    },
    Run {
        line: "lfiload check --format json files.tmp/ret.code",
        status: WELL,
        out: "{\"files\":[{\"path\":\"files.tmp/ret.code\",\"profile\":1,\"verdict\":\"lawful\",\"words\":1}]}\n",
        err: "",
    },
    Run {
        line: "lfiload check --format json files.tmp/three.code",
        status: NOT_WELL,
        out: "{\"files\":[{\"path\":\"files.tmp/three.code\",\"profile\":1,\"verdict\":\"bad length\",\"bytes\":3}]}\n",
        err: "lfiload: bad length files.tmp/three.code\n  3 bytes; code has a multiple of 4, from 4 to 16777216\n",
    },
    Run {
        line: "lfiload disassemble files.tmp/ret.code",
        status: WELL,
        out: "      0  0x0000000100010000  d65f03c0  ret x30\n",
        err: "",
    },
    Run {
        line: "lfiload pack files.tmp/three.code",
        status: NOT_WELL,
        out: "",
        err: "lfiload: bad length files.tmp/three.code\n  3 bytes; code has a multiple of 4, from 4 to 16777216\n",
    },
    Run {
        line: "lfiload load --out files.tmp --explain files.tmp/one_ret.stream",
        status: WELL,
        out: "module 0: complete, 1 words\nstrays 0\nmodule 0: from connection 0\n",
        err: "",
    },
    Run {
        line: "lfiload info files.tmp/module-00.img files.tmp/one_ret.stream",
        status: WELL,
        out: "files.tmp/module-00.img: image\n  slot 0\n  base 0x0000000100000000\n  words 1\n  entry 0\n  profile 1\n  lawful\nfiles.tmp/one_ret.stream: stream\n  byte 0: module 0 open, 1 words, entry 0, profile 1, small pages\n  byte 12: module 0 page 0, 4 bytes\n  byte 28: module 0 close\n",
        err: "",
    },
    Run {
        line: "lfiload run files.tmp/module-00.img --steps 5",
        status: NOT_WELL,
        out: "",
        err: "halt 3 at 0x0000000100000000 after 1 steps\n",
    },
    Run {
        line: "lfiload run files.tmp/module-00.img --steps 5 --format json",
        status: NOT_WELL,
        out: "",
        err: "{\"halt\":3,\"address\":\"0x0000000100000000\",\"steps\":1}\n",
    },
    Run {
        line: "lfiload run files.tmp/missing.img --steps 5",
        status: FAILED,
        out: "",
        err: "lfiload: cannot read files.tmp/missing.img\n  No such file or directory\n",
    },
];

/// The files of these runs.
const INPUTS: [(&str, &[u8]); 3] = [
    ("files.tmp/ret.code", &RET),
    ("files.tmp/three.code", &[0xC0, 0x03, 0x5F]),
    ("files.tmp/one_ret.stream", &ONE_RET),
];

#[test]
fn each_command(rt: HostRuntime) -> io::Result<()> {
    begin(&rt, "files.tmp", &INPUTS)?;
    let other = first_other(&rt, RUNS.as_slice());
    let line = "lfiload pack files.tmp/ret.code";
    let packs = writes(&rt, line, WELL, ONE_RET.as_slice(), "");
    let has_image = has_file(&rt, "files.tmp/module-00.img", ONE_RET_IMAGE.as_slice());
    assert!(rt; other.is_none() && packs && has_image);
    fs::remove_dir_all(&rt, "files.tmp")
}
