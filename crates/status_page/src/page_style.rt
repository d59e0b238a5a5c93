//! How the page looks.

/// The hash of the style, by which the browser takes it: SHA-256, in base64. `tests/page.sh` compares it.
pub const STYLE_HASH: [u8; 44] = *b"VjoWwmGlzM+6OQSyBvFXKqu/dMWBeKn0GueVGvtEM2Y=";

/// The style. Colours are chosen for a contrast of 4.5 and more, in the light and in the dark.
pub(crate) const STYLE: &str = r#"
:root{color-scheme:light dark;--back:#fff;--text:#1b1f24;--soft:#4b5560;--line:#c6ccd3;--card:#f5f7f9;--accent:#0b57d0;
--serving:#bcd7f7;--serving-full:#1d62b8;--following:#c3e6cb;--following-full:#1c7a37;--frozen:#fbe2a8;--frozen-full:#9a6200;
--retired:#dcdfe3;--retired-full:#6b7480}
@media (prefers-color-scheme:dark){:root{--back:#12161b;--text:#e8ecf0;--soft:#aab4bf;--line:#3b444e;--card:#1b2129;--accent:#8ab4f8;
--serving:#24415f;--serving-full:#6ea8ec;--following:#21462d;--following-full:#6cc788;--frozen:#4e3d14;--frozen-full:#e5b450;
--retired:#343b43;--retired-full:#9aa4ae}}
*{box-sizing:border-box}
body{margin:0 auto;max-width:72rem;padding:.75rem;background:var(--back);color:var(--text);font:1rem/1.45 system-ui,sans-serif}
header{display:flex;flex-wrap:wrap;gap:.25rem 1rem;align-items:baseline;border-bottom:1px solid var(--line);padding-bottom:.5rem}
h1{font-size:1.3rem;margin:0}
h2{font-size:1.05rem;margin:0 0 .5rem}
header p{margin:0;color:var(--soft)}
nav{margin-left:auto;display:flex;gap:.75rem;align-items:baseline}
a{color:var(--accent)}
button{font:inherit;color:var(--text);background:var(--card);border:1px solid var(--soft);border-radius:.3rem;padding:.1rem .6rem}
a:focus-visible,button:focus-visible,.scroll:focus-visible{outline:3px solid var(--accent);outline-offset:2px}
section{background:var(--card);border:1px solid var(--line);border-radius:.5rem;padding:.75rem;margin:.75rem 0}
.two{display:grid;gap:0 .75rem;grid-template-columns:1fr}
@media (min-width:56rem){.two{grid-template-columns:1fr 1fr}}
.scroll{overflow-x:auto}
table{border-collapse:collapse;width:100%;font-variant-numeric:tabular-nums}
caption{text-align:left;color:var(--soft)}
th,td{text-align:right;padding:.15rem .5rem .15rem 0;border-bottom:1px solid var(--line);white-space:nowrap}
th:first-child,td:first-child{text-align:left}
th{color:var(--soft);font-weight:600}
.bar{display:block;width:100%;height:3.5rem;margin:.25rem 0}
.bar text{fill:var(--text);stroke:var(--card);stroke-width:4px;paint-order:stroke;font:600 .8rem system-ui,sans-serif}
.serving{fill:var(--serving)}.serving-full{fill:var(--serving-full)}
.following{fill:var(--following)}.following-full{fill:var(--following-full)}
.frozen{fill:var(--frozen)}.frozen-full{fill:var(--frozen-full)}
.retired{fill:var(--retired)}.retired-full{fill:var(--retired-full)}
.edge{stroke:var(--back);stroke-width:2}
.key{display:inline-block;width:.8rem;height:.8rem;vertical-align:-.05rem;margin-right:.3rem}
.legend{display:flex;flex-wrap:wrap;gap:.1rem 1rem;margin:.25rem 0;padding:0;list-style:none;color:var(--soft);font-size:.9rem}
.steps{display:flex;flex-wrap:wrap;gap:.4rem;list-style:none;padding:0;margin:.25rem 0 .5rem}
.steps li{border:1px solid var(--line);border-radius:1rem;padding:.1rem .7rem;color:var(--soft)}
.steps li[aria-current]{border:2px solid var(--accent);color:var(--text);font-weight:700}
.spark{display:inline-block;vertical-align:middle;width:7rem;height:1.5rem}
.spark polyline{fill:none;stroke:var(--accent);stroke-width:1.5}
dl{display:grid;grid-template-columns:auto 1fr;gap:.1rem .75rem;margin:0}
dt{color:var(--soft)}dd{margin:0;font-variant-numeric:tabular-nums}
.events{margin:0;padding:0;list-style:none;font:.85rem/1.5 ui-monospace,monospace;white-space:nowrap}
.lost{color:var(--text);font-weight:700}
"#;
