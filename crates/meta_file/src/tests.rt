//! Meta files of known bytes.
ghost use Rattle.std.specs.Prelude.{◌≤◌};

use super::*;
use std::alloc::{AllocError, Global};
use std::process::Abort;
use std::test::Fail;

// The hexadecimal digits of the meta file of some bytes, which come in pieces of this length.
fn meta_file(alloc: Global, header: Header, bytes: &[u8], cut: usize) -> Result<String, Fail>
    requires known { header.kind ≤ 2 }
    requires some { 1 ≤ header.step }
    requires few { header.step ≤ 1048576 }
    requires cut { 1 ≤ cut }
{
    let mut meta = Vec::new(alloc);
    meta.extend_from_slice(&write_header(header))?;
    let mut summer = Summer::new(header);
    for piece in bytes.chunks(cut) {
        summer.push(piece, &mut meta)?;
    }
    summer.finish(&mut meta)?;
    let mut digits = String::new(alloc);
    for byte in meta.as_slice() {
        digits.push_str(format!(in alloc; "{byte:02x}")?.as_str())?;
    }
    Ok(digits)
}

// The check values of the catalogue of CRCs, and those of RFC 3720 for CRC-32C; a block without bytes has no checksum.
#[test]
fn known_checksums(rt: HostRuntime) -> Result<(), Fail> {
    let alloc = rt.alloc();
    let mut rising = [0u8; 32];
    for i in 0..32usize {
        rising[i] = i as u8;
    }
    let rows: [(u8, &[u8], &str); 7] = [
        (2, b"123456789", "00010200000200e3069283"),
        (1, b"123456789", "00010100000200cbf43926"),
        (0, b"123456789", "00010000000200"),
        (2, b"", "00010200000200"),
        (2, &[0; 32], "000102000002008a9136aa"),
        (2, &[0xff; 32], "0001020000020062a8ab43"),
        (2, &rising, "0001020000020046dd794e"),
    ];
    for (kind, bytes, want) in rows {
        let header = Header {
            kind: kind.min(2),
            step: 512,
        };
        assert_eq!(rt; meta_file(alloc, header, bytes, 512)?.as_str(), want);
    }
    Ok(())
}

// 1,300 bytes in three chunks, summed by another program, for many cuts into pieces.
#[test]
fn cuts_do_not_matter(rt: HostRuntime) -> Result<(), Fail> {
    let alloc = rt.alloc();
    let mut bytes = Vec::new(alloc);
    for i in 0..1300u32 {
        bytes.push((i % 251) as u8)?;
    }
    for cut in [1usize, 7, 8, 9, 511, 512, 513, 1024, 1300] {
        let ethernet = meta_file(alloc, Header { kind: 1, step: 512 }, bytes.as_slice(), cut)?;
        assert_eq!(rt;
            ethernet.as_str(),
            "000101000002007d2922204ec1c940db5698ad",
            "at {cut}"
        );
        let castagnoli = meta_file(alloc, Header { kind: 2, step: 512 }, bytes.as_slice(), cut)?;
        assert_eq!(rt;
            castagnoli.as_str(),
            "00010200000200309c86813388a598da0dcdd9",
            "at {cut}"
        );
    }
    let full = bytes.as_slice().get(..512).unwrap_or(&[]);
    let one_more = bytes.as_slice().get(..513).unwrap_or(&[]);
    let header = Header { kind: 2, step: 512 };
    assert_eq!(rt; meta_file(alloc, header, full, 100)?.len(), 22);
    assert_eq!(rt; meta_file(alloc, header, one_more, 100)?.len(), 30);
    Ok(())
}

#[test]
fn headers_have_faults(rt: HostRuntime) {
    let rows: [(&[u8], Result<Header, MetaFault>); 8] = [
        (
            b"\x00\x01\x02\x00\x00\x02\x00\xe3",
            Ok(Header { kind: 2, step: 512 }),
        ),
        (
            b"\x00\x01\x00\x00\x10\x00\x00",
            Ok(Header {
                kind: 0,
                step: 1_048_576,
            }),
        ),
        (b"\x00\x01\x02", Err(MetaFault::Short { have: 3 })),
        (
            b"\x00\x02\x00\x00\x00\x02\x00",
            Err(MetaFault::Version { v: 2 }),
        ),
        (
            b"\x01\x01\x03\x00\x00\x00\x00",
            Err(MetaFault::Version { v: 257 }),
        ),
        (
            b"\x00\x01\x03\x00\x00\x00\x00",
            Err(MetaFault::Kind { t: 3 }),
        ),
        (
            b"\x00\x01\x02\x00\x00\x00\x00",
            Err(MetaFault::Step { n: 0 }),
        ),
        (
            b"\x00\x01\x02\x00\x10\x00\x01",
            Err(MetaFault::Step { n: 1_048_577 }),
        ),
    ];
    for (bytes, want) in rows {
        assert!(rt; read_header(bytes) == want);
    }
    assert!(rt; Verdict::Whole != Verdict::Meta(MetaFault::Short { have: 3 }));
}

// CRC-32C bit by bit.
fn bit_by_bit(bytes: &[u8]) -> u32 {
    let mut register = u32::MAX;
    for byte in bytes {
        register ^= u32::from(*byte);
        for _ in 0..8u32 {
            register = if register & 1 == 1 {
                (register >> 1) ^ 0x82f6_3b78
            } else {
                register >> 1
            };
        }
    }
    register ^ u32::MAX
}

// The checksums of some bytes in chunks of this length, in pieces of this length.
fn sums(alloc: Global, bytes: &[u8], step: u32, cut: usize) -> Result<Vec<u8>, AllocError>
    requires some { 1 ≤ step }
    requires few { step ≤ 1048576 }
    requires cut { 1 ≤ cut }
{
    let mut out = Vec::new(alloc);
    let mut summer = Summer::new(Header { kind: 2, step });
    for piece in bytes.chunks(cut) {
        summer.push(piece, &mut out)?;
    }
    summer.finish(&mut out)?;
    Ok(out)
}

// Each length up to 1,100, in one chunk of several pieces, and in two chunks side by side.
#[test]
fn every_length_has_the_sum_of_its_bits(rt: HostRuntime) -> Result<(), Fail> {
    let alloc = rt.alloc();
    let mut bytes = [0u8; 1100];
    for i in 0..1100usize {
        bytes[i] = (i * i % 253) as u8;
    }
    for len in 1..1101usize {
        let all = bytes.get(..len).unwrap_or(&[]);
        let sum = sums(alloc, all, 1_048_576, 1 + len % 19)?;
        assert_eq!(rt;
            sum.as_slice(),
            bit_by_bit(all).to_be_bytes().as_slice(),
            "of {len}"
        );
        let half = len.div_ceil(2);
        let first = all.get(..half).unwrap_or(&[]);
        let second = all.get(half..).unwrap_or(&[]);
        let halves = sums(alloc, all, (half as u32).max(1).min(1100), len)?;
        assert_eq!(rt;
            halves.get(..4),
            Some(bit_by_bit(first).to_be_bytes().as_slice()),
            "of {len}"
        );
        if len > 1 {
            assert_eq!(rt;
                halves.get(4..),
                Some(bit_by_bit(second).to_be_bytes().as_slice()),
                "of {len}"
            );
        }
    }
    Ok(())
}
