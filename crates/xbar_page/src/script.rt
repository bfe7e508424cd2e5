//! The end of the page, with its script.

ghost use Rattle.std.specs.Prelude.{◌≡◌, ◌++◌, OnOk, string_bytes};
ghost use Rattle.xbar_page.specs.Page.{foot_text};

use std::alloc::AllocError;

/// The script, which `bin/page_script` packs from `script/page.js`: it shows a turn, by its section
/// and by the paths that stand after it, as the address, the controls and the keys say, or plays
/// all turns again and again.
const SCRIPT: &str = "\
(()=>{const byId=id=>document.getElementById(id);const all=query=>[...document.\
querySelectorAll(query)];const sections=all('section');const links=all('#turns a');const \
last=sections.length-1;const indexes=new Map(sections.map((section,index)=>['#'+section.\
id,index]));const paths=all('[data-from]').map(group=>({group,from:+group.dataset.from,\
until:+(group.dataset.until||Infinity),}));const LINES={row:'line ',start:204,direction:-\
1,width:46,room:174};const TRUNKS={row:'trunk ',start:1260,direction:1,width:114,room:304\
};const BOLD=1.3;const TWO_COLUMNS=1100;const slider=byId('at'),told=byId('told'),status=\
byId('status'),count=byId('count');const play=byId('play'),speed=byId('speed'),list=byId(\
'list'),turns=byId('turns');let now=0;let standing=[];let timer=0;const stands=(path,turn\
)=>turn>=path.from?path.until>turn:false;function showPaths(turn){const isNew=path=>path.\
from===turn,taken=new Map();for(const path of standing)path.group.classList.remove(\
'stands','new');standing=paths.filter(path=>stands(path,turn)).sort((one,other)=>isNew(\
other)-isNew(one));for(const path of standing){path.group.classList.add('stands');if(\
isNew(path))path.group.classList.add('new');for(const name of path.group.querySelectorAll\
('text'))putName(name,isNew(path),taken);}\n\
count.textContent='paths: '+standing.length+', crosspoints closed: '+4*standing.length;\
}\n\
function putName(name,isBold,taken){const side=name.classList.contains('line')?LINES:\
TRUNKS;const row=side.row+name.getAttribute('y');const from=taken.get(row)||0,to=from+\
side.width*(isBold?BOLD:1);taken.set(row,to);name.setAttribute('x',side.start+side.\
direction*from);name.style.display=to>side.room?'none':'';}\n\
function markLink(index){links[now].removeAttribute('aria-current');links[index].\
setAttribute('aria-current','true');if(list.open)turns.scrollTop=links[index].parentNode.\
offsetTop-turns.offsetTop-60;}\n\
function show(index){const turn=index-1,heading=sections[index].querySelector('h2').\
textContent;showPaths(turn);sections[now].classList.remove('now');sections[index].\
classList.add('now');markLink(index);slider.value=index;slider.setAttribute(\
'aria-valuetext',heading);told.textContent=index?'turn '+turn+', last '+(last-1):'start';\
if(!timer)status.textContent=heading;now=index;}\n\
function go(index){const to=Math.max(0,Math.min(last,index));stop();show(to);history.\
replaceState(null,'','#'+sections[to].id);}\n\
const step=()=>show(now===last?0:now+1);function start(){clearInterval(timer);timer=\
setInterval(step,1000*speed.value);play.textContent='stop';play.setAttribute(\
'aria-pressed','true');}\n\
function stop(){clearInterval(timer);timer=0;play.textContent='play';play.setAttribute(\
'aria-pressed','false');}\n\
function playOrStop(){if(timer){go(now);}else{start();history.replaceState(null,'',\
'#play');}}\n\
function follow(){if(location.hash==='#play'){show(0);start();}else{stop();show(indexes.\
get(location.hash)||0);}}\n\
const keys={ArrowLeft:()=>now-1,ArrowRight:()=>now+1,Home:()=>0,End:()=>last,};function \
press(event){const isWithOther=event.altKey||event.ctrlKey||event.metaKey||event.shiftKey\
;if(!keys[event.key]||isWithOther||event.target===slider||event.target===speed)return;\
event.preventDefault();go(keys[event.key]());}\n\
byId('first').onclick=()=>go(0);byId('before').onclick=()=>go(now-1);byId('after').\
onclick=()=>go(now+1);byId('final').onclick=()=>go(last);play.onclick=playOrStop;speed.\
onchange=()=>{if(timer)start();};slider.oninput=()=>go(+slider.value);addEventListener(\
'keydown',press);addEventListener('hashchange',follow);list.open=innerWidth>=TWO_COLUMNS;\
slider.max=last;byId('controls').hidden=false;follow();})();";

/// Adds the end of the page, after its picture.
#[tactic(auto, unfolding(crate::specs::Page::foot_text))]
pub fn add_foot(text: &mut String) -> Result<(), AllocError>
    ensures { OnOk result (string_bytes text.new ≡ string_bytes text.old ++ foot_text) }
{
    text.push_str("</main>\n<script>")?;
    text.push_str(SCRIPT)?;
    text.push_str("</script>\n</body>\n</html>\n")?;
    Ok(())
}
