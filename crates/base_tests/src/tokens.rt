//! Tokens of keys.

use token_ring::token;

/// Keys and tokens of the DataStax Python driver for Apache Cassandra, version 3.25 (`cassandra.cmurmur3`), but for
/// the empty key: integers, each length of a tail, most with bytes above 7F, several blocks, texts, and composite
/// keys.
const ROWS: [(&[u8], i64); 39] = [
    (b"", i64::MIN),
    (b"\x00\x00\x00\x00", -3_485_513_579_396_041_028),
    (b"\x00\x00\x00\x01", -4_069_959_284_402_364_209),
    (b"\xff\xff\xff\xff", 7_297_452_126_230_313_552),
    (b"\x00\x00\x00\x05", -7_509_452_495_886_106_294),
    (b"\x00\x00\x00\x2a", -7_160_136_740_246_525_330),
    (b"\x7f\xff\xff\xff", -765_994_672_030_311_617),
    (b"\x80\x00\x00\x00", -420_533_958_509_279_465),
    (b"s", 8_944_441_612_295_019_587),
    (b"\xba\x9e", 5_364_901_508_226_708_741),
    (b"\xac\x6f\x14", -5_010_482_593_322_034_976),
    (b"\x5a\xec\xc9\x6d\xc3", -5_915_922_763_347_803_861),
    (b"\xc1\x19\x6e\xd6\xb1\x7e", 3_111_610_702_985_759_219),
    (b"\x5e\x53\xf5\x68\xcc\x6d\xef", 4_877_072_994_798_802_239),
    (
        b"\x9d\xf1\xe4\xfa\x5c\xf9\x68\xc4",
        6_254_269_651_194_882_471,
    ),
    (
        b"\xd6\x25\x18\x8d\xb9\x8c\x09\x5d\x86",
        5_820_934_759_676_450_904,
    ),
    (
        b"\xc9\x6f\x89\x34\xb8\x1d\x4e\xb8\x46\x7b",
        2_544_640_138_673_604_163,
    ),
    (
        b"\x3d\x0a\xa4\xc4\xe6\x2a\xc3\xa6\x83\x1c\x9a",
        1_520_785_433_463_490_027,
    ),
    (
        b"\xc9\x7a\xfa\x14\x60\x4d\x41\x10\x6a\x9f\xd2\xd9",
        -2_857_213_297_620_111_993,
    ),
    (
        b"\xf5\x45\x85\xa0\xe7\xc1\x4b\x68\x8f\xe6\xcf\x45\xc5",
        1_096_212_650_079_759_941,
    ),
    (
        b"\xb6\x73\x34\x95\xbd\xb0\x6e\x47\x14\x0c\xf7\x05\x98\x22",
        5_440_674_339_391_382_557,
    ),
    (
        b"\x6e\xb4\x3e\xbf\x78\x84\x2e\xda\x3d\xc8\xfc\x1e\xfa\xc4\xa8",
        5_875_522_868_188_585_797,
    ),
    (
        b"\x91\xfe\x8f\x71\x51\xce\x67\xf3\x55\xb3\x7a\x2f\xaf\xd8\x4d\xf4",
        6_613_986_500_239_873_014,
    ),
    (
        b"\x83\x9d\x0b\xc8\x3d\xba\x20\xcf\x8b\x1b\xc1\xfd\x99\xf0\xa6\x81\x25",
        -7_532_931_856_326_091_469,
    ),
    (
        b"\x3d\xcf\xa8\x0d\xf7\x57\xbf\x22\x9e\xe0\x91\x72\xc8\xd0\x48\xc7\x6e\x90\x4b\xe2\x59\x36\x80\xf9",
        -5_249_537_512_368_704_452,
    ),
    (
        b"\xfb\x38\x77\x5f\x48\x3a\x35\x80\x85\x21\x5e\x13\xaf\x80\xb2\xe8\x6a\x07\xda\x64\xfa\x8f\x7a\x25\x36\xe1\xfb\x7b\x24\xfe\x1c",
        6_781_431_984_308_800_262,
    ),
    (
        b"\x21\x4d\xbb\x5b\x33\xaa\x12\xb1\x70\x93\x3c\xd5\x5d\xc6\x0f\xee\xfa\x24\x2d\x69\xa1\x64\xdc\xc1\x07\xad\xa1\x8e\x6a\x6b\x5c\x41",
        -716_561_275_463_698_136,
    ),
    (
        b"\x57\xee\x15\x42\x8e\x3b\x84\xb0\xb7\x9d\x64\x04\x23\x69\xb8\x9e\xd1\x66\x4a\x24\x88\xd9\xbf\xd1\x8e\xe9\x44\x3f\x30\xb1\xd5\x78\xfc",
        2_805_440_485_465_321_207,
    ),
    (
        b"\x3e\x2d\x47\x07\x2f\x26\x08\x76\x62\x00\x7f\x0f\x2e\x10\x5c\x52\x7b\x08\x4a\x2c\x2a\x1c\x6f\x3c\x70\x41\x3c\x42\x7d\x38\x7f\x42\x09\x33\x0d\x72\x2e\x53\x26\x04\x7f\x6f\x71\x43\x07\x12\x1d\x2d",
        -3_155_432_889_571_684_106,
    ),
    (b"k", 5_303_797_501_861_836_210),
    (b"l", -776_310_547_785_212_062),
    (b"a", -8_839_064_797_231_613_815),
    (b"c17", -4_558_313_994_615_876_561),
    (b"hello", -3_758_069_500_696_749_310),
    (
        b"The quick brown fox jumps over the lazy dog",
        -2_068_352_364_225_029_268,
    ),
    (
        b"\xc5\xbe\x6c\x75\xc5\xa5\x6f\x75\xc4\x8d\x6b\xc3\xbd\x20\x6b\xc5\xaf\xc5\x88",
        4_002_259_843_019_866_352,
    ),
    (
        b"\x00\x04\x00\x00\x00\x01\x00\x00\x01\x61\x00",
        6_516_349_416_904_725_244,
    ),
    (b"\x00\x00\x00\x00\x01\x78\x00", -3_884_662_248_573_342_722),
    (
        b"\x00\x03\x61\x62\x63\x00\x00\x08\xff\xff\xff\xff\xff\xff\xff\xf9\x00\x00\x01\xff\x00",
        -7_794_027_456_181_430_701,
    ),
];

#[test]
fn agrees_with_the_driver(rt: HostRuntime) {
    for (key, want) in &ROWS {
        assert!(rt; token(key) == *want, "{want}");
    }
}
