//! Command lines.
ghost use Rattle.std.specs.Prelude.{◌≡◌};

use crate::node_words::{NodeWords, WordsFault, read_words};
use crate::volume_word::VolumeWord;
use std::alloc::{AllocError, Global};
use std::process::Abort;
use std::test::Fail;

// The words that spaces part.
fn words(alloc: Global, text: &str) -> Result<Vec<String>, AllocError> {
    let mut words = Vec::new(alloc);
    for word in text.split(' ') {
        words.push(String::from_str(alloc, word)?)?;
    }
    Ok(words)
}

// Whether it is this volume.
fn is_volume(volume: &VolumeWord, uuid: &str, share: u64, dir: &str) -> bool {
    volume.uuid.as_str() == uuid && volume.share == share && volume.dir.as_str() == dir
}

// Whether the words say what `WORDS` says.
fn is_said(said: &NodeWords) -> bool {
    let pools = match said.pools.as_slice() {
        [first, second] => first.as_str() == "bp-1" && second.as_str() == "_x",
        _ => false,
    };
    let volumes = match said.volumes.as_slice() {
        [first, second] => {
            is_volume(first, "DS-1", 1000, "v1")
                && is_volume(second, "DS-2", 1_125_899_906_842_624, "/d:2")
        }
        _ => false,
    };
    pools && said.node.as_str() == "DN-1" && volumes
}

const WORDS: &str = "bp-1,_x DN-1 DS-1:1000:v1 DS-2:1125899906842624:/d:2";

// Whether a command line says what `WORDS` says.
fn is_read(alloc: Global, text: &str) -> bool {
    let Ok(words) = words(alloc, text) else {
        return false;
    };
    match read_words(alloc, words.as_slice()) {
        Ok(said) => is_said(&said),
        Err(_) => false,
    }
}

// Whether a command line is not of the form.
fn is_refused(alloc: Global, text: &str) -> bool {
    let Ok(words) = words(alloc, text) else {
        return false;
    };
    match read_words(alloc, words.as_slice()) {
        Ok(_) => false,
        Err(fault) => fault == WordsFault::Usage,
    }
}

// Command lines that are not of the form, the empty one first.
const OTHER_LINES: &str = "\
    \n\
    bp1\n\
    bp1 DN-1\n\
    .bp DN-1 DS-1:1:v1\n\
    a,,b DN-1 DS-1:1:v1\n\
    a,a DN-1 DS-1:1:v1\n\
    a/b DN-1 DS-1:1:v1\n\
    a,b,c,d,e,f,g,h,i,j,k,l,m,n,o,p,q DN-1 DS-1:1:v1\n\
    bp1 DN.1 DS-1:1:v1\n\
    bp1  DS-1:1:v1\n\
    bp1 DN-1 DS-1\n\
    bp1 DN-1 DS-1:1\n\
    bp1 DN-1 DS-1:1:\n\
    bp1 DN-1 :1:v1\n\
    bp1 DN-1 DS_1:1:v1\n\
    bp1 DN-1 DS-1:0:v1\n\
    bp1 DN-1 DS-1:01:v1\n\
    bp1 DN-1 DS-1:+1:v1\n\
    bp1 DN-1 DS-1:1125899906842625:v1\n\
    bp1 DN-1 DS-1:1:v1 DS-1:1:v2\n\
    bp1 DN-1 DS-1:1:v1 DS-2:1:v1";

#[test]
fn command_lines_are_read(rt: HostRuntime) {
    let alloc = rt.alloc();
    assert!(rt; is_read(alloc, WORDS));
}

#[test]
fn other_command_lines_are_refused(rt: HostRuntime) {
    let alloc = rt.alloc();
    for text in OTHER_LINES.split('\n') {
        assert!(rt; is_refused(alloc, text), "at {text}");
    }
}
