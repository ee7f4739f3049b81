//! The words of the command line.

/// What is printed where help is asked. `./vsa --help` and the completion of a shell take it from here too.
pub const USAGE: &str = "\
usage: ./vsa analyse CHIP [--ram LO-HI] [--mirror LO-HI] [--calls N] [--targets N] [--workers N] [--cert] [IMAGE]
       ./vsa assert CHIP [--ram LO-HI] [--mirror LO-HI] [--calls N] [--targets N] [--workers N] [IMAGE ASSERTIONS]
       ./vsa check CHIP [--ram LO-HI] [--mirror LO-HI] [--calls N] [--targets N] [IMAGE CERTIFICATE]
       ./vsa disasm CHIP [--ram LO-HI] [--mirror LO-HI] [IMAGE]
       ./vsa run CHIP [--ram LO-HI] [--mirror LO-HI] [--steps N] [IMAGE SCRIPT]
       ./vsa gen CHIP --number N
       ./vsa --help | --version

Modes, with what each reads:
  analyse   an Intel HEX text: prints what the program can do
  assert    an Intel HEX text, and assertions after its end record: says whether every run keeps them
  check     an Intel HEX text, and a certificate after its end record: prints its report, or why it is refused
  disasm    an Intel HEX text: prints its instructions
  run       an Intel HEX text, and a script after its end record: runs the program, prints what each step does
  gen       nothing: makes a program of N functions, analyses it, prints how many lines its report has

Files are read one after the other. Where none is named, the standard input is read.

Chips:
  msp430    the MSP430; not the MSP430X
  mcs51     the 8051, as an 8052

Options, each at most once, as --name value or --name=value, and --cert alone:
  --ram LO-HI     for msp430, not with gen: the first and the last address of RAM, by four hexadecimal digits each. LO is even and
                  at least 0200, HI is odd and above LO. Default: 0200-09FF
  --mirror LO-HI  for msp430, not with gen: where RAM answers a second time, by the same rules. It has no address of RAM and is no
                  longer than RAM. Default: nowhere
  --calls N       for analyse, assert and check: how many call sites a location remembers, 0 to 8. Default: 6
  --targets N     for analyse, assert and check: how many targets of one instruction are followed, 1 to 256. Default: 64
  --workers N     for analyse and assert: how many workers share it, 1 to 16. Default: 1. Four take some half of one's time where
                  a large program goes several ways; else more gain little
  --cert          for analyse: a certificate is printed behind the report, the table that check reads
  --steps N       for run: the greatest number of steps, 0 to 1000000. Default: 100
  --number N      for gen, which needs it: the number of functions, 1 to 2000

Limits: 4,194,304 bytes for an Intel HEX text, 268,435,456 bytes for a script, assertions or a certificate.

Examples:
  ./vsa analyse msp430 image.hex
  ./vsa analyse msp430 --ram 0200-03FF < image.hex
  ./vsa analyse msp430 --ram 1100-38FF --mirror 0200-09FF image.hex
  ./vsa assert msp430 image.hex assertions.txt
  ./vsa analyse msp430 --cert image.hex | sed -n '/^CERT /,$p' > certificate.txt
  ./vsa check msp430 image.hex certificate.txt
  ./vsa run msp430 --steps 1000 image.hex script.txt
  ./vsa analyse mcs51 image.ihx

docs/REPORT.md says what each line of an answer and each exit status means, docs/ASSERTIONS.md what is asserted, and
docs/CERTIFICATE.md what a certificate is.";
