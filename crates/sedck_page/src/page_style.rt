//! The style of pages.

/// Colours for light and dark, lengths in `rem`, so that text may be enlarged.
pub(crate) const STYLE: &str = "
:root{color-scheme:light dark;--page:#fff;--ink:#1b1f24;--soft:#57606a;--rule:#d0d7de;--raised:#f6f8fa;--link:#0550ae;--mark:#ffe8a3;\
    --target:#e8f1ff;--error:#b42318;--warning:#835200;--note:#0b6280;--accepted:#166534;--consume:#1d4ed8;--shorten:#15803d;--keep:#57606a;\
    --grow:#c2410c}
@media (prefers-color-scheme:dark){:root{--page:#14171c;--ink:#e6e9ee;--soft:#a3acb8;--rule:#3a424d;--raised:#1d222a;--link:#7cb7ff;--mark:#6b5300;\
    --target:#1c2c44;--error:#ff8a80;--warning:#f2c14e;--note:#7fd3ea;--accepted:#6ddc8b;--consume:#7aa7ff;--shorten:#6ddc8b;--keep:#a3acb8;\
    --grow:#ffa26b}}
*{box-sizing:border-box}
body{margin:0 auto;padding:1rem;max-width:72rem;background:var(--page);color:var(--ink);font:1rem/1.5 system-ui,sans-serif}
h1{font-size:1.5rem;margin:0 0 .5rem;overflow-wrap:anywhere}
h2{font-size:1.15rem;margin:2rem 0 .5rem}
p{margin:.25rem 0}
code{font-family:ui-monospace,monospace;font-size:.95em}
a{color:var(--link)}
a:focus-visible,summary:focus-visible{outline:.2rem solid var(--link);outline-offset:.1rem}
.answer{font-size:1.15rem;font-weight:700}
.error{color:var(--error)}.warning{color:var(--warning)}.note{color:var(--note)}.accepted{color:var(--accepted)}
.wide{overflow-x:auto}
table{border-collapse:collapse}
th,td{border:.0625rem solid var(--rule);padding:.2rem .6rem;text-align:left;vertical-align:top}
td code{overflow-wrap:anywhere}
summary{cursor:pointer;padding:.25rem 0}
ul,ol{padding-left:1.5rem}
.legend{list-style:none;padding:0;display:flex;flex-wrap:wrap;gap:.25rem 1.5rem;color:var(--soft)}
.legend svg{width:48px;height:12px;margin-right:.4rem;vertical-align:middle}
.script{list-style:none;margin:.5rem 0;padding:.25rem 0;border:.0625rem solid var(--rule);border-radius:.25rem}
.script>li{position:relative;display:flex;flex-wrap:wrap;min-height:1.5rem;padding-left:calc(var(--jumps) + .25rem);padding-right:.5rem;scroll-margin-top:4rem}
.script>li:target,.finding:target{background:var(--target)}
.script>.loop{border-right:.3rem solid var(--error);background:var(--raised)}
.jumps{position:absolute;left:0;top:0;width:var(--jumps);height:100%;overflow:hidden}
.number{flex:none;min-width:4ch;margin-right:1rem;text-align:right;color:var(--soft);text-decoration:none;font-family:ui-monospace,monospace;\
    font-size:.95em;line-height:1.5rem}
.number:hover{text-decoration:underline}
.script>li>code{flex:1 1 0;min-width:0;white-space:pre-wrap;overflow-wrap:anywhere;line-height:1.5rem}
.tag{flex:none;margin-left:.75rem;font-size:.85em;line-height:1.5rem;color:var(--error)}
.soft{color:var(--soft)}
mark{background:var(--mark);color:inherit;text-decoration:underline}
.finding{flex:1 1 100%;margin:.25rem 0 .5rem;padding:.4rem .75rem;background:var(--raised);border-left:.3rem solid;color:inherit;\
    border-left-color:var(--soft);overflow-wrap:anywhere}
.finding.error{border-left-color:var(--error);color:inherit}
.finding.warning{border-left-color:var(--warning);color:inherit}
.finding.note{border-left-color:var(--note);color:inherit}
.finding ol{margin:.25rem 0}
.finding code,td code{white-space:pre-wrap}
svg g,svg .line{fill:none;stroke-width:1.5;stroke:currentColor}
.consume{stroke:var(--consume)!important}
.shorten{stroke:var(--shorten)!important;stroke-dasharray:8 4}
.keep{stroke:var(--keep)!important;stroke-dasharray:2 2;stroke-width:1.75}
.keep.bold{stroke-dasharray:3 3}
.grow{stroke:var(--grow)!important;stroke-dasharray:10 2 2 2 2 2}
svg .bold{stroke:var(--error)!important;stroke-width:3.5}
.head{stroke-dasharray:none;stroke-width:1}
.consume>.head{fill:var(--consume)}.shorten>.head{fill:var(--shorten)}.keep>.head{fill:var(--keep)}.grow>.head{fill:var(--grow)}.bold>.head{fill:var(--error)}
@media print{:root{color-scheme:light}body{max-width:none;padding:0;font-size:.8rem}a{color:inherit;text-decoration:none}.script>li,.finding,tr{\
    break-inside:avoid}details::details-content{display:block;content-visibility:visible;height:auto}}
";
