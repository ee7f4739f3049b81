//! The fixed parts of a page.

/// How a page looks: by the reader's choice of light or dark, and on paper.
pub const STYLE: &str = "\
:root{color-scheme:light dark;--bg:#fff;--fg:#1d2329;--dim:#5a646e;--line:#e2e6ea;--soft:#f5f7f9;--link:#0b57d0;--ok:#1a7f37;--okbg:#eaf6ed;--bad:#a94400;--badbg:#fff3e6;--mark:#fff8c5;--irq:#b3261e;--call:#7a3fc2;--bar:#2f6fd6;--z1:#1f5fbf;--z2:#7a3fc2;--z3:#b35900;--z4:#177a4c;--z5:#b3261e;--mono:ui-monospace,SFMono-Regular,Menlo,Consolas,'DejaVu Sans Mono',monospace;--sans:system-ui,-apple-system,'Segoe UI',Roboto,'DejaVu Sans',sans-serif}
@media(prefers-color-scheme:dark){:root{--bg:#12161b;--fg:#dfe5eb;--dim:#9aa5b0;--line:#2a323a;--soft:#1a2027;--link:#8ab4f8;--ok:#6fd08c;--okbg:#14281b;--bad:#ffb070;--badbg:#33230f;--mark:#3a3512;--irq:#ff8a80;--call:#c9a2ff;--bar:#7aa7ff;--z1:#7aa7ff;--z2:#c9a2ff;--z3:#ffb070;--z4:#6fd08c;--z5:#ff8a80}}
*{box-sizing:border-box}
body{margin:0;background:var(--bg);color:var(--fg);font:15px/1.5 var(--sans)}
main{max-width:1240px;margin:0 auto;padding:28px 24px 60px}
h1{font-size:17px;font-weight:600;color:var(--dim);margin:0 0 6px}
h1 b{color:var(--fg)}
h2{font-size:18px;margin:34px 0 10px}
h3{font-size:15px;margin:18px 0 4px}
.of{margin:0;font-size:13px;color:var(--dim);overflow-wrap:anywhere}
a{color:var(--link);text-decoration:none}
a:hover{text-decoration:underline}
.verdict{border-left:6px solid var(--ok);background:var(--okbg);border-radius:6px;padding:14px 20px;margin-top:12px}
.verdict b{display:block;font-size:30px;line-height:1.25;letter-spacing:.04em;color:var(--ok)}
.verdict p,.advice{margin:4px 0 0;max-width:80ch}
.open.verdict{border-color:var(--bad);background:var(--badbg)}
.open.verdict b{color:var(--bad)}
ul{margin:8px 0}
dl{display:flex;flex-wrap:wrap;gap:12px;margin:18px 0 0}
dl div{flex:1 1 120px;border:1px solid var(--line);border-radius:6px;padding:10px 14px}
dl div:first-child{flex:2 1 300px}
dt{font-size:13px;color:var(--dim)}
dd{margin:0;font-size:22px;line-height:1.35;font-variant-numeric:tabular-nums}
dd small{display:block;font-size:13px;line-height:1.45;color:var(--dim)}
dd a,td,tbody th,code,pre,.strip span,p a,li a:first-child{font-family:var(--mono)}
p a,li a:first-child,p code{font-size:.92em}
section,.scroll{overflow-x:auto}
table{border-collapse:collapse;width:100%;font-size:13px;line-height:1.6}
section table{table-layout:fixed;min-width:1100px}
section{content-visibility:auto;contain-intrinsic-size:auto 5600px}
caption{text-align:left;color:var(--dim);padding:0 max(0px,calc(720px - 100vw)) 6px 0}
th,td{vertical-align:top;padding:2px 14px 2px 0;text-align:left;overflow-wrap:anywhere}
thead th{font-weight:600;color:var(--dim);border-bottom:2px solid var(--line);white-space:nowrap}
.v thead th{font-size:0;line-height:0;padding-top:0;padding-bottom:0;border:0}
.f{min-width:680px}
.f th,.f td{padding-left:6px}
.f tbody tr+tr>*{border-top:1px solid var(--line)}
.a{font-family:var(--mono)}
.x>*{background:var(--badbg)}
.x em{color:var(--bad);font-weight:600}
section th:first-child{padding-left:12px}
tbody th{font-weight:400}
tr{scroll-margin-top:40px}
tr:hover>*{background:var(--soft)}
tr:target>*{background:var(--mark)}
.s>*{border-top:1px solid var(--line);padding-top:5px}
.b{color:var(--dim)}
.t{font-weight:600}
td b,th b,p b,li b,dd b{font:600 12px var(--sans);color:var(--call)}
td em{font-style:normal;font-weight:400;color:var(--dim)}
.w i,.m i{font:12px var(--sans);color:var(--dim)}
.w,.m{padding-right:4px}
.w a,.m span{display:inline-block;margin-right:4px}
.n{color:var(--dim)}
.l,.r,.l i,.r i{color:var(--call)}
.i,.u,.i i,.u i{color:var(--irq)}
.k{padding-left:72px;padding-right:0}
.d{float:left;display:flex;width:62px;height:10px;margin:5px 0 0 -72px;border-bottom:1px solid var(--line)}
.d i{background:var(--bar)}
.d i+i{background:none;border:2px solid var(--bar);border-left:0}
.o>*,.y>*{background:var(--badbg)}
.o th,.y td{box-shadow:inset 4px 0 var(--bad)}
.y td{color:var(--bad);font-family:inherit;padding:0 max(14px,calc(1162px - 100vw)) 6px 12px}
.g td{color:var(--dim);font-family:inherit;padding:5px 14px 5px 12px;border-top:1px dashed var(--line);background:repeating-linear-gradient(135deg,transparent 0 6px,var(--soft) 6px 12px)}
figure{margin:14px 0}
figcaption{font-size:14px;margin-bottom:6px}
.q{display:inline-block;margin-right:14px;white-space:nowrap}
.q svg{width:11px;height:11px}
.strip{display:flex;gap:12px;align-items:center;margin:5px 0;font-size:13px}
.strip span{flex:0 0 11em;color:var(--dim)}
.strip svg{flex:1;height:22px;border:1px solid var(--line)}
.z1{fill:var(--z1)}.z2{fill:var(--z2)}.z3{fill:var(--z3)}.z4{fill:var(--z4)}.z5{fill:var(--z5)}
details{margin:10px 0}
summary{cursor:pointer;color:var(--link)}
pre{font-size:12px;line-height:1.45;overflow-x:auto;background:var(--soft);padding:10px 14px}
.notes{columns:2 380px;column-gap:40px;color:var(--dim);font-size:14px}
.notes p{margin:0 0 8px;break-inside:avoid}
.notes b{font:inherit;font-weight:600;color:var(--fg)}
@media(max-width:700px){main{padding:18px 14px 40px}.strip{display:block}.strip svg{width:100%}}
@media print{body{font-size:10pt}main{max-width:none;padding:0}table{font-size:8pt}section{content-visibility:visible}section,.scroll{overflow:visible}tr,dl div,.verdict{break-inside:avoid}a{color:inherit}h2{break-after:avoid}}
";

/// What stands in front of the rows.
pub const HEAD: &str = "\
<h2 id=program>The program by address</h2>
<section><table>";

/// The columns of the rows. Each section of rows is a table of its own, with the same columns.
pub const COLUMNS: &str = "\
<colgroup><col style=width:7.5%><col style=width:10%><col style=width:15%><col style=width:17%><col style=width:17%><col style=width:17.5%><col>
<thead><tr><th scope=col>Address<th scope=col>Bytes<th scope=col>Instruction<th scope=col>Goes to<th scope=col>Comes from<th scope=col>Memory<th scope=col>Stack pointer</thead>
<tbody>
";

/// What a store into the program means, and what to do.
pub const STORE_ADVICE: &str = "\
<h3>Stores that may write the program</h3>
<p class=advice>The analysis takes the image as constant, and goes on behind such a store as if nothing had been written. The program changes its own code or vectors, or a pointer isn't bounded: many addresses are the sign of that. Compare the pointer with the end of what it may write, or write an index with a mask in its place. A push before SP is set is such a store too, and so is a stack without a bound.
";

/// What too many targets mean, and what to do.
pub const TARGETS_ADVICE: &str = "\
<h3>Ways to too many addresses</h3>
<p class=advice>None of the targets is followed. An input may choose where control goes, or the analysis doesn't see what bounds it. Compare the index with the length of its table, a constant, just before the jump. If it is a return, look for a store through an unbounded pointer before it, which may change the return address. Up to 256 targets are followed by <code>--targets</code>.
";

/// What a missing instruction means, and what to do.
pub const FETCH_ADVICE: &str = "\
<h3>No instruction</h3>
<p class=advice>Control can come here, and nothing is known of what comes then. Code is missing from the image, or the bytes are no instruction of the chip, as those of an MSP430X, or the jump is wrong. Look the address up in the linker's map file; if the image is whole, follow the column <i>Comes from</i> back to the jump.
";

/// What the columns and words of a page say.
pub const NOTES: &str = "\
<h2 id=notes>How to read this page</h2>
<div class=notes>
<p><b>Functions.</b> Worked out from the lines below: a function is what can be reached from the target of a call, an interrupt or the reset without a further one. Its own stack is how far the stack pointer falls within it, its total has what it calls, return addresses included.
<p><b>Memory by address.</b> The same accesses as in the column <i>Memory</i>, by what they access. <i>From</i> says in which program or handler they run. <i>shared</i> marks what a handler and other code have in common, where one writes.
<p><b>Goes to, comes from.</b> Where control can go after an instruction, and from where it can come. <i>next</i> and <i>above</i> are the neighbours in the program. Where the report doesn't tell how control goes, no word stands there.
<p><b>interrupt, resume.</b> An interrupt can come at this instruction, and its handler can return to it.
<p><b>Memory.</b> The addresses that the instruction, or an interrupt that comes there, may read or write, and how many bytes at once. Several addresses mean that it may be any of them.
<p><b>Stack pointer.</b> Its values when control comes to the instruction. The bar shows how far the stack has grown: the full part is reached in every case, the hollow one in some case. The longest bar is the deepest stack of the program.
<p><b>Numbers.</b> Addresses and bytes are hexadecimal, and numbers of bytes decimal. <code>0200 to 023E by 2</code> is every second number from 0200 to 023E.
<p><b>Open.</b> A place at which the analysis met its limits. What follows a missing instruction or too many targets isn't on this page. Behind a store that may write the program it is, for a program that is unchanged.
</div>
";
