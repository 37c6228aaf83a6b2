//! The tables of dpkg (ostable, tupletable), as far as names do not tell.

/// A name, the ABI, the C library, the system and the processor that it stands for.
pub type Row = (
    &'static [u8],
    &'static [u8],
    &'static [u8],
    &'static [u8],
    &'static [u8],
);

/// The systems that names of architectures begin with, before any processor.
pub const SYSTEMS: [Row; 14] = [
    (b"uclibc-linux", b"base", b"uclibc", b"linux", b""),
    (b"musl-linux", b"base", b"musl", b"linux", b""),
    (b"uclinux", b"base", b"uclibc", b"uclinux", b""),
    (b"kfreebsd", b"base", b"gnu", b"kfreebsd", b""),
    (b"knetbsd", b"base", b"gnu", b"knetbsd", b""),
    (b"kopensolaris", b"base", b"gnu", b"kopensolaris", b""),
    (b"hurd", b"base", b"gnu", b"hurd", b""),
    (b"dragonflybsd", b"base", b"bsd", b"dragonflybsd", b""),
    (b"freebsd", b"base", b"bsd", b"freebsd", b""),
    (b"openbsd", b"base", b"bsd", b"openbsd", b""),
    (b"netbsd", b"base", b"bsd", b"netbsd", b""),
    (b"darwin", b"base", b"bsd", b"darwin", b""),
    (b"aix", b"base", b"sysv", b"aix", b""),
    (b"solaris", b"base", b"sysv", b"solaris", b""),
];

/// The architectures whose parts do not follow from their names.
pub const WHOLE: [Row; 18] = [
    (b"armel", b"eabi", b"gnu", b"linux", b"arm"),
    (b"armhf", b"eabihf", b"gnu", b"linux", b"arm"),
    (b"arm64ilp32", b"ilp32", b"gnu", b"linux", b"arm64"),
    (b"x32", b"x32", b"gnu", b"linux", b"amd64"),
    (b"powerpcspe", b"spe", b"gnu", b"linux", b"powerpc"),
    (b"kfreebsd-armhf", b"eabihf", b"gnu", b"kfreebsd", b"arm"),
    (b"uclinux-armel", b"eabi", b"uclibc", b"uclinux", b"arm"),
    (b"uclibc-linux-armel", b"eabi", b"uclibc", b"linux", b"arm"),
    (b"musl-linux-armhf", b"eabihf", b"musl", b"linux", b"arm"),
    (b"mint-m68k", b"base", b"tos", b"mint", b"m68k"),
    (b"mips64", b"abi64", b"gnu", b"linux", b"mips64"),
    (b"mips64el", b"abi64", b"gnu", b"linux", b"mips64el"),
    (b"mips64r6", b"abi64", b"gnu", b"linux", b"mips64r6"),
    (b"mips64r6el", b"abi64", b"gnu", b"linux", b"mips64r6el"),
    (b"mipsn32", b"abin32", b"gnu", b"linux", b"mips64"),
    (b"mipsn32el", b"abin32", b"gnu", b"linux", b"mips64el"),
    (b"mipsn32r6", b"abin32", b"gnu", b"linux", b"mips64r6"),
    (b"mipsn32r6el", b"abin32", b"gnu", b"linux", b"mips64r6el"),
];
