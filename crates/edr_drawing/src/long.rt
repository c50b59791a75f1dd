//! The long texts of a page.

/// The head of a page: its style, then the beginning of the report's digest, as each side of paper has it.
pub const HEAD: &[u8] = br#"<!DOCTYPE html>
<html lang="en">
<head>
<meta charset="utf-8">
<meta http-equiv="Content-Security-Policy" content="default-src 'none'; style-src 'unsafe-inline'">
<meta name="viewport" content="width=device-width">
<title>Event data recorder: retrieved events, report {0}</title>
<style>
{1}{0}{2}"#;

/// The style of a page.
pub const STYLE: &[u8] = br#"@page{margin:9mm 12mm 12mm}
*{box-sizing:border-box}
body{margin:0;background:#e7e7e7;color:#000;font:9pt/1.35 Arial,"Liberation Sans",Helvetica,sans-serif}
@media screen{section{max-width:210mm;overflow-x:auto;margin:8mm auto;padding:10mm 12mm;background:#fff;box-shadow:0 0 2mm #999}}
@media screen and (max-width:700px){section{margin:0 0 4mm;padding:4mm}section>svg{min-width:165mm}}
@media print{body{background:#fff}section{margin:0}section+section{break-before:page}}
h1{font-size:15pt;margin:0 0 1mm}
h2,h3{font-size:9pt;margin:1mm 0 .5mm}
.head h2{font-size:13pt;margin:0 0 1mm}
ul{margin:.5mm 0;padding-left:5mm}
p{margin:0 0 1mm}
.head{display:flex;flex-wrap:wrap;justify-content:space-between;align-items:baseline;border-bottom:.5mm solid #000;margin-bottom:1mm}
.facts{display:flex;flex-wrap:wrap;gap:0 7mm;margin:0 0 1mm;padding:0;list-style:none}
.note{border-left:1.2mm solid #000;padding:.3mm 2.5mm;margin:0 0 1mm;background:#f1f1f1;font-size:8pt;line-height:1.25}
.note ul{margin:0 0 .5mm;padding-left:4mm}
.why ul{columns:2;column-gap:6mm}
.notes{font-size:8pt;line-height:1.25}
table{border-collapse:collapse;width:100%;font-size:8pt;line-height:1.2;font-variant-numeric:tabular-nums}
th,td{border-bottom:.2mm solid #bbb;padding:.2mm 1mm;text-align:left;vertical-align:top;font-weight:400}
thead th{border-bottom:.35mm solid #000;font-weight:700}
caption{font-weight:700;text-align:left;font-size:9pt;padding:1mm 0 .5mm}
.num th,.num td{text-align:right;padding:.3mm .6mm}
.num th:first-child{text-align:left}
.two{display:grid;grid-template-columns:repeat(auto-fit,minmax(80mm,1fr));gap:0 6mm;align-items:start}
.two th{white-space:nowrap;width:1%}.two table{line-height:1.1}.two th,.two td{padding:.05mm 1mm}
.form th{white-space:nowrap;width:1%;padding-top:4mm}.form td{width:50%}
.foot{font-size:8pt;color:#444;margin:1.5mm 0 0}
code{overflow-wrap:anywhere;font-family:"Liberation Mono","DejaVu Sans Mono",monospace;font-size:8pt}
svg{display:block;width:100%;height:auto;margin:0 0 1mm}
svg text{font-size:28.5px;fill:#000}
.c{text-anchor:middle}.e{text-anchor:end}.b{font-weight:700}.m{font-size:36px!important;font-weight:700}
svg .g{fill:#555}svg .w{fill:#fff;font-weight:700}
.h,.v{paint-order:stroke;stroke:#fff;stroke-width:7px;stroke-linejoin:round}
.c.h,.v{stroke-width:8px}
svg .n1{fill:#00547f;font-weight:700}svg .n2{fill:#a84300;font-weight:700}
.plot{fill:#fff;stroke:#777;stroke-width:2}
.grid{fill:none;stroke:#d4d4d4;stroke-width:2}.axis{fill:none;stroke:#555;stroke-width:3}.part{fill:none;stroke:#777;stroke-width:2}
.zero{fill:none;stroke:#000;stroke-width:5}.end{fill:none;stroke:#000;stroke-width:3;stroke-dasharray:14 8}
.gap{fill:url(#hatch);stroke:#999;stroke-width:1.5}
.on{fill:#000}.off{fill:#fff;stroke:#000;stroke-width:2.5}
.s1,.s2{fill:none;stroke-width:4.5;stroke-linejoin:round}.s1{stroke:#0072b2}.s2{stroke:#d55e00;stroke-dasharray:16 9}
.p1{fill:#0072b2}.p2{fill:#fff;stroke:#d55e00;stroke-width:3.5}
.d0,.d1,.d2{fill:#fff;stroke-width:4.5}.d0{stroke:#000}.d1{stroke:#0072b2}.d2{stroke:#d55e00}
.flag{fill:#000}
.q path{stroke-dasharray:3 11}.q .p1{fill:#fff;stroke:#0072b2;stroke-width:3.5}.q .p2{stroke-dasharray:6 4}
.blocks{display:grid;grid-template-columns:repeat(auto-fill,minmax(56mm,1fr));gap:0 5mm;align-items:start}
.time table{font-size:8pt;line-height:1.06}.time th,.time td{padding:0 .6mm;border-bottom:.1mm solid #bbb}
.num .l{text-align:left}.time th:first-child{text-align:right}
@media print{.time.long,table.num:has(+.time.long){break-before:page}table.num+.time.long{break-before:auto}table.num,.two,svg,.note{break-inside:avoid}h2,h3{break-after:avoid}}
@media print and (max-height:262mm){svg{width:96%;margin:0 auto .5mm}}
@page{font:8pt Arial,"Liberation Sans",Helvetica,sans-serif;@bottom-right{content:"side " counter(page) " of " counter(pages)}}
@page e1{@bottom-center{content:"Event 1"}}
@page e2{@bottom-center{content:"Event 2"}}
@page e3{@bottom-center{content:"Event 3"}}
@page e4{@bottom-center{content:"Event 4"}}
@page e5{@bottom-center{content:"Event 5"}}
@page e6{@bottom-center{content:"Event 6"}}
@page e7{@bottom-center{content:"Event 7"}}
@page e8{@bottom-center{content:"Event 8"}}
@page e9{@bottom-center{content:"Event 9"}}
@page e10{@bottom-center{content:"Event 10"}}
@page e11{@bottom-center{content:"Event 11"}}
@page e12{@bottom-center{content:"Event 12"}}
@page e13{@bottom-center{content:"Event 13"}}
@page e14{@bottom-center{content:"Event 14"}}
@page e15{@bottom-center{content:"Event 15"}}
@page e16{@bottom-center{content:"Event 16"}}
@page{@bottom-left{content:"Report "#;

/// What stands between the style and the first sheet.
pub const BODY: &[u8] = br##""}}
</style>
</head>
<body>
<svg width="0" height="0" style="position:absolute" aria-hidden="true"><defs><pattern id="hatch" width="14" height="14" patternUnits="userSpaceOnUse" patternTransform="rotate(45)"><rect width="14" height="14" fill="#f4f4f4"/><path d="M0 0V14" stroke="#bdbdbd" stroke-width="5"/></pattern></defs></svg>
"##;

/// The fields that are filled in by hand, and how to read the pages.
pub const FORM_AND_NOTES: &[u8] = br#"<h2>To be filled in by hand</h2>
<table class="form" aria-label="To be filled in by hand">
<tbody>
<tr><th scope="row">Vehicle, VIN</th><td></td><th scope="row">Case</th><td></td></tr>
<tr><th scope="row">Date and place of the crash</th><td></td><th scope="row">Read out by, when</th><td></td></tr>
<tr><th scope="row">Image, SHA-256</th><td colspan="3"></td></tr>
</tbody>
</table>
<h2>How to read the pages</h2>
<ul class="notes">
<li>Marks are what was recorded. The lines between them only guide the eye: nothing is recorded between two marks.</li>
<li>A hatched field and the word "none" are absent: they aren't zero. Where a value is 0, the mark stands at 0. An axis without any sample has no marks, but the words "no sample". One that lacks some has a dotted curve with hollow marks, and the legend says how many.</li>
<li>Time zero is a millisecond of the ignition cycle, counted from power on. Where a fast change of speed gives it, it is the last millisecond of the interval in which the change was seen, and comes up to 20 ms after the beginning of that interval, across the car up to 5 ms. So a firing at 14 ms may have come 34 ms after the change began. What the car lost until time zero is in no delta-V.</li>
<li>Delta-V is the change of speed since time zero. Along the car plus is forward, so a loss has a minus sign. Across it plus is to the driver's right. A millisecond without a sample counts as no change: where samples are lacking, the changes may be too small or too large, and so may the resultant.</li>
<li>The curves end 30 ms past the end of the event, or at 250 ms. The greatest changes are looked for in each millisecond up to 30 ms past the end, or to 300 ms, so they may lie between two marks of a curve or after its last one.</li>
<li>Each value before time zero is the latest of the 100 ms up to its time. Throttle is the position of the accelerator pedal. Driver belt and air bag lamp are values of one moment, 1.0 s before time zero: a belt that is on is fastened, a lamp that is on tells of a fault. Mph are computed from km/h.</li>
<li>A record is locked once an air bag or a curtain fired; a pretensioner alone doesn't lock. A deployment "none" says that nothing fired up to the close of the event. In a record without a part after time zero it says nothing, and neither does a lock that is missing.</li>
<li>An event is second in a crash where another one began up to 5 seconds before it, which need not be among the retrieved ones. Its sheet names those of them that may be it: told as first, of the same ignition cycle, and as many tenths of a second before it. Otherwise it is the first one, or stands alone.</li>
<li>Of a run, "take" says that an event was confirmed, and that a bank took what stood before its time zero; "lock" that its record was locked, and is never overwritten; "done" that the event was closed, and its record has what came after time zero; "stopped in call" in which call to the memory the power stopped.</li>
<li>An unlocked record that gave way to a later event leaves no trace among the retrieved ones, nor does an event that no bank kept. So the pages don't say that nothing else happened. Counts of ignition cycles stop at 60000.</li>
<li>Accuracy is that of the sensors, and nothing is claimed of it.</li>
<li>Nothing in a report shows who wrote it. Bytes that somebody changed to those of another record are shown as that record; what speaks against it is who kept the image, and its sum.</li>
</ul>
"#;

pub const PAGE_END: &[u8] = b"</body>\n</html>\n";
