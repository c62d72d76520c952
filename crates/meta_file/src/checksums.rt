// What the checksums are of some bytes.
ghost use Rattle.meta_file.specs.ChecksumLaws.{HasCheckValues, SomeDoNot, SomeMatch};

/// CRC-32C and CRC-32 have the check values of the catalogue of CRC parameters.
pub fn has_check_values()
    ensures { HasCheckValues }
{}

/// Meta files that match.
pub fn some_match()
    ensures { SomeMatch }
{}

/// Meta files that do not match.
pub fn some_do_not_match()
    ensures { SomeDoNot }
{}
